// The orders that are shown.
use figures::order::Order;

/// How many places a shown book has.
pub(crate) const PLACES: usize = 5;

/// An order of these figures, whether or not they are the market's.
pub(crate) fn order(member: u8, hour: u32, serial: u32, energy: u32, limit: i32) -> Order {
    Order {
        hour,
        serial,
        member,
        energy,
        limit,
    }
}

/// Two hours, equal limits, a serial that stands already, a member whom the market does not have, and
/// one order more than the places.
pub(crate) fn orders() -> [Order; 8] {
    [
        order(1, 102, 1, 500, 4000),
        order(1, 101, 2, 300, 4500),
        order(2, 101, 3, 200, 4500),
        order(3, 101, 4, 100, -50),
        order(3, 101, 3, 100, 4500),
        order(40, 101, 5, 100, 4500),
        order(4, 101, 6, 50, 5000),
        order(4, 101, 7, 50, 5000),
    ]
}
