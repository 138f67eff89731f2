// A made-up stream of orders, the same on every run.
use figures::bounds::LOWEST_LIMIT;
use figures::order::Order;

/// The orders are spread over the delivery hours from 1 to this one.
pub(crate) const LAST_HOUR: u32 = 24;

// Multiples of the factor modulo the prime lie scattered below the prime.
const FACTOR: u64 = 40_503;

const PRIME: u64 = 65_537;

const MEMBERS: u32 = 32;

// More than the cuts of a run take off one order.
const LEAST_ENERGY: u32 = 1_000;

// The limits lie a step apart over the whole price range, and are so few that many orders share one.
const LIMITS: u32 = 10;

const LIMIT_STEP: i32 = 50_000;

/// The order of the stream that has this serial.
pub(crate) fn order(serial: u32) -> Order {
    // The casts are proved to lose nothing; `try_from` would answer a `Result`.
    let scattered = (u64::from(serial) * FACTOR % PRIME) as u32;
    let level = scattered / LAST_HOUR % LIMITS;
    Order {
        hour: 1 + scattered % LAST_HOUR,
        serial,
        member: (serial % MEMBERS) as u8,
        energy: LEAST_ENERGY + scattered,
        limit: LOWEST_LIMIT + LIMIT_STEP * level as i32,
    }
}
