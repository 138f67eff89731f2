// A ranking that the market does not have: at equal limits the later bid comes first. It shows that
// books serve any ranking that keeps the laws.
ghost use Rattle.std.specs.Prelude.{nat_lt, pos, refl};
ghost use Rattle.sides.specs.Ranking.{buying, limit_then};
ghost use Rattle.std.proofs.Common.{rules};

use figures::bounds::HIGHEST_LIMIT;
use figures::order::Order;
use sides::ranking::Ranking;
use sides::side::{BidSide, Side};
use std::cmp::Reverse;

#[derive(Clone, Copy, Debug, PartialEq, Eq)]
pub struct LatestFirst;

impl Ranking for LatestFirst {
    ghost direction = { buying };

    ghost first = { limit_then buying (λ serial other. nat_lt other serial) };

    ghost lawful = { Prim.search rules };

    fn comes_first(order: &Order, other: &Order) -> bool {
        (Reverse(order.limit), Reverse(order.serial))
            < (Reverse(other.limit), Reverse(other.serial))
    }
}

/// Bids that are ranked so.
#[derive(Clone, Copy, Debug, PartialEq, Eq)]
pub struct LateBids;

impl Side for LateBids {
    type Rank = LatestFirst;

    const MARKET: i32 = HIGHEST_LIMIT;

    ghost MARKET = { pos 400000 };

    ghost market = { refl };
}

impl BidSide for LateBids {
    ghost buys = { Prim.search rules };
}
