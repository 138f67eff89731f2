// What a shelf does.
ghost use Rattle.std.specs.Prelude.{◌≡◌, [], length, IfOk};
ghost use Rattle.book.specs.Meaning.{checked_places, made_answer};
ghost use Rattle.books.specs.Holding.{held, size, sound};

use crate::places::Places;
use crate::shelf::Shelf;
use book::book::Book;
use book::criterion::{OfHour, WithSerial};
use book::slices::{count, first, place_of};
use figures::order::Order;
use figures::refusal::Refusal;
use sides::side::Side;
use std::marker::PhantomData;

impl<'a, S: Side> Shelf<'a, S> {
    /// An empty shelf over the places, whatever stands in them.
    pub fn new(orders: &'a mut [Order]) -> Result<Shelf<'a, S>, Refusal>
        ensures answer { made_answer result ≡ checked_places (length orders.old) }
        ensures made { IfOk result (λ shelf. (size shelf.places ≡ length orders.old) × (held shelf.places ≡ [])) }
    {
        let places = Places::over(orders)?;
        Ok(Shelf {
            places,
            side: PhantomData,
        })
    }
}

impl<'a, S: Side> Book for Shelf<'a, S> {
    type Side = S;

    ghost capacity = { λ shelf. size shelf.places };

    ghost list = { λ shelf. held shelf.places };

    ghost places = { λ shelf. shelf.places.orders.now };

    fn put(&mut self, order: Order) -> Result<(), Refusal> {
        self.places.put_by_rank::<S::Rank>(order)
    }

    fn count(&self) -> usize {
        self.places.count
    }

    fn count_of(&self, hour: u32) -> usize {
        count(self.places.held(), &OfHour(hour))
    }

    fn best(&self, hour: u32) -> Option<Order> {
        first(self.places.held(), &OfHour(hour))
    }

    fn at(&self, position: usize) -> Option<Order> {
        self.places.at(position)
    }

    fn find(&self, serial: u32) -> Option<Order> {
        first(self.places.held(), &WithSerial(serial))
    }

    fn cut(&mut self, hour: u32, energy: u32) -> Result<(), Refusal> {
        let place = place_of(self.places.held(), &OfHour(hour));
        self.places.cut_at(place, energy)
    }

    fn withdraw(&mut self, serial: u32) -> Option<Order> {
        self.places.withdraw(serial)
    }

    fn drop_hour(&mut self, hour: u32) -> u64 {
        self.places.drop_hour(hour)
    }

    ghost sound = { λ shelf. sound shelf.places shelf.places.filled };

    ghost ranked = { λ shelf. shelf.ranked };
}
