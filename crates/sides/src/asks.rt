// The asks: the lower limit first, and at equal limits the lower serial.
ghost use Rattle.std.specs.Prelude.{nat_lt, negsuc, refl};
ghost use Rattle.sides.specs.Ranking.{selling, limit_then};
ghost use Rattle.std.proofs.Common.{rules};

use crate::ranking::Ranking;
use crate::side::{AskSide, Side};
use figures::bounds::LOWEST_LIMIT;
use figures::order::Order;

/// The ranking of the asks.
#[derive(Clone, Copy, Debug, PartialEq, Eq)]
pub struct LowestAskFirst;

impl Ranking for LowestAskFirst {
    ghost direction = { selling };

    ghost first = { limit_then selling nat_lt };

    ghost lawful = { Prim.search rules };

    fn comes_first(order: &Order, other: &Order) -> bool {
        (order.limit, order.serial) < (other.limit, other.serial)
    }
}

/// The side of the asks.
#[derive(Clone, Copy, Debug, PartialEq, Eq)]
pub struct Asks;

impl Side for Asks {
    type Rank = LowestAskFirst;

    const MARKET: i32 = LOWEST_LIMIT;

    ghost MARKET = { negsuc 49999 };

    ghost market = { refl };
}

impl AskSide for Asks {
    ghost sells = { Prim.search rules };
}
