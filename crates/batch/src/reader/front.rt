// The record that some bytes begin with.
ghost use Rattle.std.specs.Prelude.{◌≡◌, ◌<◌, length};
ghost use Rattle.batch.specs.Fronts.{told_front, Measured};
ghost use Rattle.batch.specs.Standing.{standing};

use crate::fields::Fields;
use crate::record::Record;
use figures::refusal::{Part, Reason, Refusal};

// The record that `rest`, the bytes from `place` on, begins with.
pub(super) fn front<'a>(rest: &'a [u8], place: usize) -> Result<Record<'a>, Refusal>
    requires { 0 < length rest.now }
    ensures answer { told_front place result ≡ standing place rest.now }
    ensures measured { Measured rest.now result }
{
    let short = || Reason::CutShort { place }.refused_by(Part::Reader);
    match rest {
        [0x4F, 0x42, rest @ ..] => Ok(Record::Bid(Fields(rest.first_chunk().ok_or_else(short)?))),
        [0x4F, 0x41, rest @ ..] => Ok(Record::Ask(Fields(rest.first_chunk().ok_or_else(short)?))),
        [0x4D, 0x42, rest @ ..] => Ok(Record::MarketBid(Fields(
            rest.first_chunk().ok_or_else(short)?,
        ))),
        [0x4D, 0x41, rest @ ..] => Ok(Record::MarketAsk(Fields(
            rest.first_chunk().ok_or_else(short)?,
        ))),
        [0x4F, 0x57, rest @ ..] => Ok(Record::Withdrawal(Fields(
            rest.first_chunk().ok_or_else(short)?,
        ))),
        [_, _, ..] => Err(Reason::UnknownMark { place }.refused_by(Part::Reader)),
        _ => Err(short()),
    }
}
