// A part of a batch, with its place.

/// What a record holds, and the place of the record's first byte in the batch.
#[derive(Clone, Copy, Debug, PartialEq, Eq)]
pub struct Placed<T> {
    pub place: usize,
    pub item: T,
}
