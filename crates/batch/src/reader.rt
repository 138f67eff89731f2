// A reader of the records of a batch.
ghost use Rattle.std.specs.Prelude.{◌≤◌, length};

mod calls;
mod front;

/// Stands at a place of a batch, behind the records that it gave.
#[derive(Drop)]
pub struct Reader<'a> {
    batch: &'a [u8],
    place: usize,
    ghost within: { place ≤ length batch.now },
}
