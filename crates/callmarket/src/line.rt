// A line that the program prints.
ghost use Rattle.std.specs.Prelude.{Some};
ghost use Rattle.callmarket.specs.Lines.{line_text};

use batch::request::Entry;
use figures::refusal::Refusal;
use std::fmt;

/// One line of the listing, without the end of the line.
#[derive(Clone, Copy)]
pub enum Line {
    Call { hour: u32 },
    Listed(Entry),
    Unreadable(Refusal),
    TooLong,
}

impl fmt::Display for Line {
    ghost output = { λ line. Some (line_text line) };

    fn fmt<W: fmt::Write>(&self, f: &mut fmt::Formatter<W>) -> fmt::Result {
        match self {
            Line::Call { hour } => write!(f, "CALL {hour}"),
            Line::Listed(Entry { place, item }) => write!(f, "RECORD {place} {item}"),
            Line::Unreadable(Refusal { reason, .. }) => {
                write!(f, "UNREADABLE {} {}", reason.figure(), reason.number())
            }
            Line::TooLong => write!(f, "TOO LONG"),
        }
    }
}
