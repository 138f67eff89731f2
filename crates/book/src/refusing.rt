// Refusals that a book gives when it is called by itself.
ghost use Rattle.std.specs.Prelude.{◌≡◌};
ghost use Rattle.book.specs.Meaning.{by_book, checked_places};

use figures::bounds::MOST_PLACES;
use figures::refusal::{Part, Reason, Refusal, refuse_unless};

/// The same answer, where a reason is refused by the part book.
pub fn by_book(answer: Result<(), Reason>) -> Result<(), Refusal>
    ensures { result ≡ by_book answer }
{
    answer.map_err(|reason| reason.refused_by(Part::Book))
}

/// Refuses to make a book over too few or too many places.
pub fn check_places(places: usize) -> Result<(), Refusal>
    ensures { result ≡ checked_places places }
{
    by_book(refuse_unless(
        (1..=MOST_PLACES).contains(&places),
        Reason::PlacesOutOfRange { places },
    ))
}
