// What is timed: runs of calls on a book of any kind.
ghost use Rattle.std.specs.Prelude.{◌≤◌};

use crate::orders::{LAST_HOUR, order};
use book::book::Book;
use figures::bounds::MOST_PLACES;

/// Puts the first `count` orders of the stream, and answers how many the book accepted.
pub(crate) fn fill<B: Book>(book: &mut B, count: u32) -> usize
    ensures { result ≤ count }
{
    (0..count)
        .map(|put| book.put(order(put + 1)))
        .filter(Result::is_ok)
        .count()
}

/// Takes 1 kWh off the best order of an hour, `count` times, the hours in turn, and answers how many
/// cuts the book accepted.
pub(crate) fn cut<B: Book>(book: &mut B, count: u32) -> usize
    ensures { result ≤ count }
{
    // Not one function with `fill`, over a closure: it would have to take any number, at which `put + 1` may not fit.
    (0..count)
        .map(|turn| book.cut(1 + turn % LAST_HOUR, 1))
        .filter(Result::is_ok)
        .count()
}

/// Empties the hours one after the other, and answers how many orders it removed.
pub(crate) fn drain<B: Book>(book: &mut B) -> usize {
    // A loop, since the check does not find that a `sum` over the hours fits.
    let mut removed = 0;
    for passed in 0..LAST_HOUR {
        removed += drain_hour(book, 1 + passed);
    }
    removed
}

// Cuts all the energy of an hour's best order until the hour is empty, and answers how many orders it
// removed.
fn drain_hour<B: Book>(book: &mut B, hour: u32) -> usize
    ensures { result ≤ 4096 }
{
    (0..MOST_PLACES)
        .take_while(|_| drain_best(book, hour))
        .count()
}

// Cuts all the energy of an hour's best order, and answers whether there was one.
fn drain_best<B: Book>(book: &mut B, hour: u32) -> bool {
    book.best(hour)
        .is_some_and(|best| book.cut(hour, best.energy).is_ok())
}
