// Which of two orders of one hour comes first.
ghost use Rattle.std.specs.Prelude.{◌≡◌};
ghost use Rattle.sides.specs.Ranking.{Direction, Ranks, Lawful};

use figures::order::Order;

/// A way to rank the orders of one side, by limit and serial alone.
pub trait Ranking {
    /// Whether its orders buy or sell.
    ghost direction: { Direction };
    /// Whether the first limit and serial come before the second.
    ghost first: { Ranks };

    /// Whether `order` comes before `other`, an order of the same hour.
    fn comes_first(order: &Order, other: &Order) -> bool
        ensures { result ≡ first order.now.limit order.now.serial other.now.limit other.now.serial };

    ghost lawful: { Lawful direction first };
}
