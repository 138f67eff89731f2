// The figures of the market, and the checks against them.
ghost use Rattle.std.specs.Prelude.{◌≡◌};
ghost use Rattle.figures.specs.Bounds.{checked_member, checked_hour, checked_energy, checked_limit, checked_serial};

use crate::refusal::{Reason, refuse_unless};

pub const LAST_MEMBER: u8 = 31;

pub const LAST_DELIVERY_HOUR: u32 = 1_000_024;

pub const MOST_ENERGY: u32 = 1_000_000;

pub const LOWEST_LIMIT: i32 = -50_000;

pub const HIGHEST_LIMIT: i32 = 400_000;

pub const LAST_SERIAL: u32 = 4_000_000_000;

pub const MOST_PLACES: usize = 4_096;

/// Refuses a member that the exchange does not have.
pub fn check_member(member: u8) -> Result<(), Reason>
    ensures { result ≡ checked_member member }
{
    refuse_unless(member <= LAST_MEMBER, Reason::MemberUnknown { member })
}

/// Refuses an hour that can never be open.
pub fn check_hour(hour: u32) -> Result<(), Reason>
    ensures { result ≡ checked_hour hour }
{
    refuse_unless(hour <= LAST_DELIVERY_HOUR, Reason::HourNotOpen { hour })
}

/// Refuses an energy that no order may have.
pub fn check_energy(energy: u32) -> Result<(), Reason>
    ensures { result ≡ checked_energy energy }
{
    refuse_unless(
        (1..=MOST_ENERGY).contains(&energy),
        Reason::EnergyOutOfRange { energy },
    )
}

/// Refuses a price outside the price range.
pub fn check_limit(limit: i32) -> Result<(), Reason>
    ensures { result ≡ checked_limit limit }
{
    refuse_unless(
        (LOWEST_LIMIT..=HIGHEST_LIMIT).contains(&limit),
        Reason::LimitOutOfRange { limit },
    )
}

/// Refuses a serial that is never issued.
pub fn check_serial(serial: u32) -> Result<(), Reason>
    ensures { result ≡ checked_serial serial }
{
    refuse_unless(
        (1..=LAST_SERIAL).contains(&serial),
        Reason::SerialOutOfRange { serial },
    )
}
