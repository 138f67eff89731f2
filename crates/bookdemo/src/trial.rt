// Orders put into any book, and read back from it.
ghost use Rattle.std.specs.Prelude.{◌≡◌, min, ◌++◌, length, take, drop};
ghost use Rattle.sides.specs.Listing.{sooner};
ghost use Rattle.bookdemo.specs.Trial.{all_put, count_put};

use book::book::Book;
use figures::order::Order;

/// Puts each order, and answers how many the book accepted.
pub fn put_all<B: Book>(book: &mut B, orders: &[Order]) -> usize
    ensures answer { result ≡ count_put (sooner B.Side.Rank.Ranking.first) (B.Book.capacity book.old) (B.Book.list book.old) orders.now }
    ensures list { B.Book.list book.new ≡ all_put (sooner B.Side.Rank.Ranking.first) (B.Book.capacity book.old) (B.Book.list book.old) orders.now }
    ensures capacity { B.Book.capacity book.new ≡ B.Book.capacity book.old }
{
    // After a chain whose closure changes the book, nothing would be known of the book.
    let mut accepted = 0;
    for order in orders {
        if book.put(*order).is_ok() {
            accepted += 1;
        }
    }
    accepted
}

/// Writes the listed orders to the front of a table, as far as it reaches, and answers how many.
pub fn read_back<B: Book>(book: &B, table: &mut [Order]) -> usize
    ensures answer { result ≡ min (length (B.Book.list book.now)) (length table.old) }
    ensures table { table.new ≡ take result (B.Book.list book.now) ++ drop result table.old }
{
    for (position, place) in table.iter_mut().enumerate() {
        let Some(order) = book.at(position) else {
            return position;
        };
        *place = order;
    }
    table.len()
}
