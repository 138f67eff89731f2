// Why a batch was not read to its end.
ghost use Rattle.std.specs.Prelude.{◌≡◌};
ghost use Rattle.batch.specs.declared.unread.Unread.TheVariants.{Unreadable, NoMemory};

use figures::refusal::Refusal;
use std::alloc::AllocFailed;

/// A place at which no record can be read, or want of memory for the entries.
#[derive(Clone, Copy, Debug, PartialEq, Eq)]
pub enum Unread {
    Unreadable(Refusal),
    NoMemory,
}

// By hand, since `reads` of `read_all` names what its `?` makes, and a derive has no `from_gives`.
impl From<Refusal> for Unread {
    ghost from_gives = { λ refusal r. r ≡ Unreadable refusal };

    fn from(refusal: Refusal) -> Unread {
        Unread::Unreadable(refusal)
    }
}

// By hand likewise, for `room` of `read_all`.
impl<T: Drop> From<AllocFailed<T>> for Unread {
    ghost from_gives = { λ _ r. r ≡ NoMemory };

    fn from(_e: AllocFailed<T>) -> Unread {
        Unread::NoMemory
    }
}
