// A record of a batch, as the part of the batch that holds it.
ghost use Rattle.std.specs.Prelude.{◌≡◌};
ghost use Rattle.batch.specs.Layout.{layout, Fitting};
ghost use Rattle.batch.specs.Records.{bytes, size};

use crate::fields::{LimitFields, OrderFields, WithdrawalFields};
use crate::placed::Placed;
use crate::request::Request;

/// A record's kind, with the bytes that stand behind its mark.
#[derive(Clone, Copy)]
pub enum Record<'a> {
    Bid(LimitFields<'a>),
    Ask(LimitFields<'a>),
    MarketBid(OrderFields<'a>),
    MarketAsk(OrderFields<'a>),
    Withdrawal(WithdrawalFields<'a>),
}

/// A record, and the place of its first byte in the batch.
pub type Found<'a> = Placed<Record<'a>>;

impl Record<'_> {
    /// The number of its bytes, mark included.
    // By kind: of `2 + fields.len()` it stayed open that it is the length of the record's bytes.
    pub fn size(self) -> usize
        ensures { result ≡ size self.entry }
    {
        match self {
            Record::Bid(_) | Record::Ask(_) => 15,
            Record::MarketBid(_) | Record::MarketAsk(_) => 11,
            Record::Withdrawal(_) => 7,
        }
    }

    /// Its fields as numbers.
    pub fn request(self) -> Request
        ensures layout { layout result ≡ bytes self.entry }
        ensures fitting { Fitting result }
    {
        match self {
            Record::Bid(fields) => Request::Bid {
                terms: fields.order().terms(),
                limit: fields.limit(),
            },
            Record::Ask(fields) => Request::Ask {
                terms: fields.order().terms(),
                limit: fields.limit(),
            },
            Record::MarketBid(fields) => Request::MarketBid {
                terms: fields.terms(),
            },
            Record::MarketAsk(fields) => Request::MarketAsk {
                terms: fields.terms(),
            },
            Record::Withdrawal(fields) => Request::Withdrawal {
                member: fields.member(),
                serial: fields.serial(),
            },
        }
    }
}
