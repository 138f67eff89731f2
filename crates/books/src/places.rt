// Places for orders.
ghost use Rattle.books.specs.Filling.{Fill};

use figures::order::Order;

mod calls;

/// Places that a caller lends to a book. The first `count` hold orders, whatever stands in the others.
// A count beside a slice, and no `Vec`, since books take no memory of their own.
#[derive(Drop)]
pub struct Places<'a> {
    pub orders: &'a mut [Order],
    pub count: usize,
    ghost filled: { Fill count orders.now },
}
