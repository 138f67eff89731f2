// An order, and the figures that bound it.
ghost use Rattle.std.specs.Prelude.{◌≡◌, Ok, Some};
ghost use Rattle.figures.specs.Orders.{checked_before};
ghost use Rattle.figures.specs.Texts.{order_text};

use crate::bounds::{check_energy, check_hour, check_limit, check_member, check_serial};
use crate::refusal::Reason;
use std::fmt;

/// A member's standing offer to buy or to sell energy in one delivery hour.
#[derive(Clone, Copy, Debug, PartialEq, Eq)]
pub struct Order {
    pub hour: u32,
    pub serial: u32,
    pub member: u8,
    /// What is left of it, in kWh.
    pub energy: u32,
    /// The highest price at which it buys, or the lowest at which it sells, in euro cents per MWh.
    pub limit: i32,
}

impl Order {
    /// Whether each field lies within the figures; the first that does not is refused.
    pub fn check(&self) -> Result<(), Reason>
        ensures { result ≡ checked_before self.now (Ok tt) }
    {
        check_member(self.member)?;
        check_hour(self.hour)?;
        check_energy(self.energy)?;
        check_limit(self.limit)?;
        check_serial(self.serial)
    }
}

impl fmt::Display for Order {
    ghost output = { λ order. Some (order_text order) };

    fn fmt<W: fmt::Write>(&self, f: &mut fmt::Formatter<W>) -> fmt::Result {
        let Order {
            hour,
            serial,
            member,
            energy,
            limit,
        } = self;
        write!(
            f,
            "hour {hour} serial {serial} member {member} energy {energy} limit {limit}"
        )
    }
}
