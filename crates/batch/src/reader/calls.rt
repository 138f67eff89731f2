// What a reader does.
ghost use Rattle.std.specs.Prelude.{◌≡◌, ◌+◌};
ghost use Rattle.batch.specs.Reading.{here};
ghost use Rattle.batch.specs.Standing.{step, told};

use crate::reader::Reader;
use crate::reader::front::front;
use crate::record::Found;
use figures::refusal::Refusal;

impl<'a> Reader<'a> {
    /// A reader at the first byte of `batch`.
    pub fn new(batch: &'a [u8]) -> Self
        ensures batch { result.batch.now ≡ batch.now }
        ensures place { result.place ≡ 0 }
    {
        Reader { batch, place: 0 }
    }

    /// The record at the place where the reader stands, or none at the end. The reader then
    /// stands behind the record; where it refuses, it stays.
    pub fn next(&mut self) -> Result<Option<Found<'a>>, Refusal>
        ensures answer { told result ≡ here self.old }
        ensures place { self.new.place ≡ self.old.place + step (here self.old) }
        ensures batch { self.new.batch.now ≡ self.old.batch.now }
    {
        let place = self.place;
        let batch = self.batch;
        let ahead = &batch[place..];
        if ahead.is_empty() {
            return Ok(None);
        }
        let record = front(ahead, place)?;
        self.place = place + record.size();
        Ok(Some(Found {
            place,
            item: record,
        }))
    }
}
