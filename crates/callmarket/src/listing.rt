// What the program says of its input, line by line.
ghost use Rattle.std.specs.Prelude.{IfOk, OnOk};
ghost use Rattle.callmarket.specs.Listing.{Lists, Ended, Says};

use crate::line::Line;
use batch::request::Entry;
use batch::unread::Unread;
use batch::whole::read_all;
use std::alloc::{AllocError, Global};

/// The most bytes that a batch may have.
pub const LONGEST: usize = 32_768;

/// The hour at which the market stands when the program starts.
const OPENING_HOUR: u32 = 100;

/// The fewest bytes that a record has.
const SHORTEST: usize = 7;

/// The lines for `input`: that it is too long for a batch, or what the batch holds.
pub fn listing(heap: Global, input: &[u8]) -> Result<Vec<Line>, AllocError>
    ensures { IfOk result (λ lines. Says input.now lines.items) }
{
    if input.len() <= LONGEST {
        list_batch(heap, input)
    } else {
        Ok(vec![in heap; Line::TooLong]?)
    }
}

// A line for the call, one for each record, and one for the first place at which there is no
// record, if any.
fn list_batch(heap: Global, batch: &[u8]) -> Result<Vec<Line>, AllocError>
    ensures { IfOk result (λ lines. Lists batch.now lines.items) }
{
    let mut entries = Vec::with_capacity(heap, batch.len() / SHORTEST)?;
    let end = read_all(batch, &mut entries);
    // Room for the call's line, the records' and one more: where a vector grows, it asks for twice what it holds.
    let mut lines = Vec::with_capacity(heap, entries.len() + 2)?;
    lines.push(Line::Call { hour: OPENING_HOUR })?;
    lines.extend(entries.into_iter().map(Line::Listed))?;
    add_end(&mut lines, end)?;
    Ok(lines)
}

// Adds a line for the place at which reading stopped, if it did. Each of three outcomes has an answer of its own.
fn add_end(lines: &mut Vec<Line>, end: Result<(), Unread>) -> Result<(), AllocError>
    ensures { OnOk result (Ended end lines.old.items lines.new.items) }
{
    match end {
        Ok(()) => Ok(()),
        Err(Unread::Unreadable(refusal)) => Ok(lines.push(Line::Unreadable(refusal))?),
        Err(Unread::NoMemory) => Err(AllocError),
    }
}
