// The fields of a withdrawal.
ghost use Rattle.std.specs.Prelude.{◌≡◌, [], ◌∷◌, take, drop};
ghost use Rattle.batch.specs.Layout.{word};

use crate::fields::{Fields, number_at};

/// Member (1 byte) and serial (4).
pub type WithdrawalFields<'a> = Fields<'a, 5>;

impl Fields<'_, 5> {
    // As in `OrderFields`: once for every length, it would ask its caller that a byte is there, and a helper for
    // the two would be no shorter than they are.
    pub fn member(self) -> u8
        ensures { take 1 self.entry.0.now ≡ result ∷ [] }
    {
        let [member, ..] = self.0;
        *member
    }

    pub fn serial(self) -> u32
        ensures { drop 1 self.entry.0.now ≡ word result }
    {
        let fields = self.0;
        number_at(fields, 1)
    }
}
