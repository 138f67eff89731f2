// The fields of an order with a limit.
ghost use Rattle.std.specs.Prelude.{◌≡◌, take, drop};
ghost use Rattle.batch.specs.Layout.{signed_word};

use crate::fields::{Fields, OrderFields, number_at};

/// The fields that every order has (9 bytes), then the limit (4, two's complement).
pub type LimitFields<'a> = Fields<'a, 13>;

impl<'a> Fields<'a, 13> {
    /// All but the limit.
    pub fn order(self) -> OrderFields<'a>
        ensures { result.0.now ≡ take 9 self.entry.0.now }
    {
        let fields = self.0;
        Fields(fields.first_chunk().unwrap())
    }

    pub fn limit(self) -> i32
        ensures { drop 9 self.entry.0.now ≡ signed_word result }
    {
        let fields = self.0;
        number_at(fields, 9).cast_signed()
    }
}
