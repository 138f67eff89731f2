// The fields that every order has; one at market has no others.
ghost use Rattle.std.specs.Prelude.{◌≡◌, [], ◌∷◌, take, drop};
ghost use Rattle.batch.specs.Layout.{bytes_at, word, terms_layout, FittingTerms};

use crate::fields::{Fields, number_at};
use crate::request::Terms;

/// Member (1 byte), hour (4) and energy (4).
pub type OrderFields<'a> = Fields<'a, 9>;

impl Fields<'_, 9> {
    pub fn member(self) -> u8
        ensures { take 1 self.entry.0.now ≡ result ∷ [] }
    {
        let [member, ..] = self.0;
        *member
    }

    pub fn hour(self) -> u32
        ensures { bytes_at 1 4 self.entry.0.now ≡ word result }
    {
        let fields = self.0;
        number_at(fields, 1)
    }

    pub fn energy(self) -> u32
        ensures { drop 5 self.entry.0.now ≡ word result }
    {
        let fields = self.0;
        number_at(fields, 5)
    }

    /// All three.
    pub fn terms(self) -> Terms
        ensures layout { terms_layout result ≡ self.entry.0.now }
        ensures fitting { FittingTerms result }
    {
        Terms {
            member: self.member(),
            hour: self.hour(),
            energy: self.energy(),
        }
    }
}
