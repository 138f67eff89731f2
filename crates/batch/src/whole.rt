// Reads a whole batch.
ghost use Rattle.std.specs.Prelude.{◌≡◌, ◌/◌, ◌<◌, length, Err, vec_capacity};
ghost use Rattle.batch.specs.Whole.{Reads};
ghost use Rattle.batch.specs.declared.unread.Unread.TheVariants.{NoMemory};

use crate::reader::Reader;
use crate::record::Found;
use crate::request::Entry;
use crate::unread::Unread;

/// Reads the records of `batch` into `entries`, in place of what these held, to the end of the
/// batch or to the first place at which no record can be read.
pub fn read_all(batch: &[u8], entries: &mut Vec<Entry>) -> Result<(), Unread>
    ensures reads { Reads batch.now entries.new.items result }
    ensures room { result ≡ Err NoMemory → vec_capacity entries.old < length batch.now / 7 }
{
    entries.clear();
    let mut reader = Reader::new(batch);
    while let Some(Found { place, item }) = reader.next()? {
        entries.push(Entry {
            place,
            item: item.request(),
        })?;
    }
    Ok(())
}
