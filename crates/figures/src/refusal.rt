// Why a call turned something down, and which part of the exchange did.
ghost use Rattle.std.specs.Prelude.{◌≡◌, not, Ok, Some};
ghost use Rattle.figures.specs.Bounds.{refuse_if};
ghost use Rattle.figures.specs.Refusals.{notice, refused_by};
ghost use Rattle.figures.specs.Texts.{refusal_text};

use std::error::Error;
use std::fmt;

/// A part of the exchange that can refuse.
#[derive(Clone, Copy, Debug, PartialEq, Eq)]
pub enum Part {
    Exchange,
    Bids,
    Asks,
    Book,
    Journal,
    Rule,
    Reader,
}

/// What was wrong. Each case holds the value that docs/REFUSALS.md calls its figure.
#[derive(Clone, Copy, Debug, PartialEq, Eq)]
pub enum Reason {
    MemberUnknown { member: u8 },
    HourNotOpen { hour: u32 },
    EnergyOutOfRange { energy: u32 },
    LimitOutOfRange { limit: i32 },
    SerialsUsedUp,
    BookFull { capacity: usize },
    SerialStands { serial: u32 },
    NoSuchOrder { serial: u32 },
    NoRoomForTrades { orders: usize },
    LastHour { hour: u32 },
    ScheduleTooShort { entries: usize },
    DepthTooShort { entries: usize },
    OpeningTooLate { hour: u32 },
    SerialOutOfRange { serial: u32 },
    UnknownMark { place: usize },
    CutShort { place: usize },
    CutTooLarge { energy: u32 },
    AskAboveBid { ask: i32 },
    TradeOutOfRange { written: usize },
    JournalFull { capacity: usize },
    PlacesOutOfRange { places: usize },
}

impl Reason {
    /// The number by which members know the refusal.
    pub fn number(self) -> u8
        ensures { result ≡ (notice self).number }
    {
        match self {
            Reason::MemberUnknown { .. } => 1,
            Reason::HourNotOpen { .. } => 2,
            Reason::EnergyOutOfRange { .. } => 3,
            Reason::LimitOutOfRange { .. } => 4,
            Reason::SerialsUsedUp => 5,
            Reason::BookFull { .. } => 6,
            Reason::SerialStands { .. } => 7,
            Reason::NoSuchOrder { .. } => 8,
            Reason::NoRoomForTrades { .. } => 9,
            Reason::LastHour { .. } => 10,
            Reason::ScheduleTooShort { .. } => 11,
            Reason::DepthTooShort { .. } => 12,
            Reason::OpeningTooLate { .. } => 13,
            Reason::SerialOutOfRange { .. } => 14,
            Reason::UnknownMark { .. } => 15,
            Reason::CutShort { .. } => 16,
            Reason::CutTooLarge { .. } => 17,
            Reason::AskAboveBid { .. } => 18,
            Reason::TradeOutOfRange { .. } => 19,
            Reason::JournalFull { .. } => 20,
            Reason::PlacesOutOfRange { .. } => 21,
        }
    }

    /// The figure that goes with the number.
    pub fn figure(self) -> i128
        ensures { result ≡ (notice self).figure }
    {
        // A length has no `From` into an `i128`; the cast loses nothing.
        match self {
            Reason::MemberUnknown { member } => i128::from(member),
            Reason::HourNotOpen { hour } => i128::from(hour),
            Reason::EnergyOutOfRange { energy } => i128::from(energy),
            Reason::LimitOutOfRange { limit } => i128::from(limit),
            Reason::SerialsUsedUp => 4_000_000_000,
            Reason::BookFull { capacity } => capacity as i128,
            Reason::SerialStands { serial } => i128::from(serial),
            Reason::NoSuchOrder { serial } => i128::from(serial),
            Reason::NoRoomForTrades { orders } => orders as i128,
            Reason::LastHour { hour } => i128::from(hour),
            Reason::ScheduleTooShort { entries } => entries as i128,
            Reason::DepthTooShort { entries } => entries as i128,
            Reason::OpeningTooLate { hour } => i128::from(hour),
            Reason::SerialOutOfRange { serial } => i128::from(serial),
            Reason::UnknownMark { place } => place as i128,
            Reason::CutShort { place } => place as i128,
            Reason::CutTooLarge { energy } => i128::from(energy),
            Reason::AskAboveBid { ask } => i128::from(ask),
            Reason::TradeOutOfRange { written } => written as i128,
            Reason::JournalFull { capacity } => capacity as i128,
            Reason::PlacesOutOfRange { places } => places as i128,
        }
    }

    /// The refusal for this reason that a part gives.
    pub fn refused_by(self, part: Part) -> Refusal
        ensures { result ≡ refused_by part self }
    {
        Refusal { part, reason: self }
    }
}

/// Refuses for a reason, unless something holds.
pub fn refuse_unless(holds: bool, reason: Reason) -> Result<(), Reason>
    ensures { result ≡ refuse_if (not holds) reason (Ok tt) }
{
    holds.then_some(()).ok_or(reason)
}

/// A refusal: the part that gave it, and its reason.
#[derive(Clone, Copy, Debug, PartialEq, Eq)]
pub struct Refusal {
    pub part: Part,
    pub reason: Reason,
}

impl fmt::Display for Refusal {
    ghost output = { λ refusal. Some (refusal_text refusal) };

    fn fmt<W: fmt::Write>(&self, f: &mut fmt::Formatter<W>) -> fmt::Result {
        write!(
            f,
            "refused {} with figure {}",
            self.reason.number(),
            self.reason.figure()
        )
    }
}

impl Error for Refusal {}
