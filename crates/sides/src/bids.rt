// The bids: the higher limit first, and at equal limits the lower serial.
ghost use Rattle.std.specs.Prelude.{nat_lt, pos, refl};
ghost use Rattle.sides.specs.Ranking.{buying, limit_then};
ghost use Rattle.std.proofs.Common.{rules};

use crate::ranking::Ranking;
use crate::side::{BidSide, Side};
use figures::bounds::HIGHEST_LIMIT;
use figures::order::Order;
use std::cmp::Reverse;

/// The ranking of the bids.
#[derive(Clone, Copy, Debug, PartialEq, Eq)]
pub struct HighestBidFirst;

impl Ranking for HighestBidFirst {
    ghost direction = { buying };

    ghost first = { limit_then buying nat_lt };

    ghost lawful = { Prim.search rules };

    fn comes_first(order: &Order, other: &Order) -> bool {
        (Reverse(order.limit), order.serial) < (Reverse(other.limit), other.serial)
    }
}

/// The side of the bids.
#[derive(Clone, Copy, Debug, PartialEq, Eq)]
pub struct Bids;

impl Side for Bids {
    type Rank = HighestBidFirst;

    const MARKET: i32 = HIGHEST_LIMIT;

    ghost MARKET = { pos 400000 };

    ghost market = { refl };
}

impl BidSide for Bids {
    ghost buys = { Prim.search rules };
}
