// What a record asks for, in numbers.
ghost use Rattle.std.specs.Prelude.{Some};
ghost use Rattle.batch.specs.Texts.{terms_text, request_text};

use crate::placed::Placed;
use std::fmt;

/// What every order names: whose it is, for which delivery hour, and how many kWh.
#[derive(Clone, Copy, Debug, PartialEq, Eq)]
pub struct Terms {
    pub member: u8,
    pub hour: u32,
    pub energy: u32,
}

/// The request that a record holds. A limit is in cents per MWh.
#[derive(Clone, Copy, Debug, PartialEq, Eq)]
pub enum Request {
    Bid { terms: Terms, limit: i32 },
    Ask { terms: Terms, limit: i32 },
    MarketBid { terms: Terms },
    MarketAsk { terms: Terms },
    Withdrawal { member: u8, serial: u32 },
}

/// A request, and the place of its record in the batch.
pub type Entry = Placed<Request>;

impl fmt::Display for Terms {
    ghost output = { λ terms. Some (terms_text terms) };

    fn fmt<W: fmt::Write>(&self, f: &mut fmt::Formatter<W>) -> fmt::Result {
        let Terms {
            member,
            hour,
            energy,
        } = self;
        write!(f, "{member} {hour} {energy}")
    }
}

impl fmt::Display for Request {
    ghost output = { λ request. Some (request_text request) };

    fn fmt<W: fmt::Write>(&self, f: &mut fmt::Formatter<W>) -> fmt::Result {
        match self {
            Request::Bid { terms, limit } => write!(f, "BID {terms} {limit}"),
            Request::Ask { terms, limit } => write!(f, "ASK {terms} {limit}"),
            Request::MarketBid { terms } => write!(f, "MARKET-BID {terms}"),
            Request::MarketAsk { terms } => write!(f, "MARKET-ASK {terms}"),
            Request::Withdrawal { member, serial } => write!(f, "WITHDRAWAL {member} {serial}"),
        }
    }
}
