// The fields of a record, read from the bytes behind its mark. Every number is big-endian.
ghost use Rattle.std.specs.Prelude.{◌≡◌, ◌+◌, ◌≤◌, length};
ghost use Rattle.batch.specs.Layout.{bytes_at, word};

mod limit;
mod order;
mod withdrawal;

pub use limit::LimitFields;
pub use order::OrderFields;
pub use withdrawal::WithdrawalFields;

/// The N bytes behind a record's mark. Which fields they hold follows from N.
// An accessor names the array by a `let` before it lends it on as a slice; the borrow checker does not cover that
// straight from `self`.
#[derive(Clone, Copy)]
pub struct Fields<'a, const N: usize>(pub &'a [u8; N]);

// The number that the four bytes from `at` on spell, highest first.
fn number_at(bytes: &[u8], at: usize) -> u32
    requires { at + 4 ≤ length bytes.now }
    ensures { bytes_at at 4 bytes.now ≡ word result }
{
    let (_, ahead) = bytes.split_at(at);
    u32::from_be_bytes(*ahead.first_chunk().unwrap())
}
