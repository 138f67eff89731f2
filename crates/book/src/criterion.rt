// What a search through orders looks for.
ghost use Rattle.std.specs.Prelude.{◌≡◌, Bool};
ghost use Rattle.figures.specs.declared.order.Order.{Order};
ghost use Rattle.book.specs.Lists.{of_hour, with_serial};

use figures::order::Order;

/// A test that an order passes or not.
// A trait and no closure: of a closure a caller would have to show that it may be called, and a contract could
// not name the test that it computes.
pub trait Criterion {
    ghost passes: { Self → Order → Bool };

    fn passed_by(&self, order: &Order) -> bool
        ensures { result ≡ passes self.now order.now };
}

/// The orders of one hour.
#[derive(Clone, Copy, Debug, PartialEq, Eq)]
pub struct OfHour(pub u32);

impl Criterion for OfHour {
    ghost passes = { λ sought. of_hour sought.0 };

    fn passed_by(&self, order: &Order) -> bool {
        order.hour == self.0
    }
}

/// The orders with one serial.
#[derive(Clone, Copy, Debug, PartialEq, Eq)]
pub struct WithSerial(pub u32);

impl Criterion for WithSerial {
    ghost passes = { λ sought. with_serial sought.0 };

    fn passed_by(&self, order: &Order) -> bool {
        order.serial == self.0
    }
}
