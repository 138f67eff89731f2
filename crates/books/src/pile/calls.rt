// What a pile does.
ghost use Rattle.std.specs.Prelude.{◌≡◌, [], length, IfOk};
ghost use Rattle.sides.specs.Listing.{sooner};
ghost use Rattle.book.specs.Meaning.{checked_places, made_answer};
ghost use Rattle.book.proofs.Ranked.{sooner_laws};
ghost use Rattle.books.specs.Holding.{held, size};
ghost use Rattle.books.specs.Sorting.{sorted, sorted_ranked, sorted_sound};

use crate::pile::Pile;
use crate::places::Places;
use book::book::Book;
use book::criterion::{OfHour, WithSerial};
use book::slices::{count, first};
use figures::order::Order;
use figures::refusal::Refusal;
use sides::side::Side;
use std::marker::PhantomData;

impl<'a, S: Side> Pile<'a, S> {
    /// An empty pile over the places, whatever stands in them.
    pub fn new(orders: &'a mut [Order]) -> Result<Pile<'a, S>, Refusal>
        ensures answer { made_answer result ≡ checked_places (length orders.old) }
        ensures made { IfOk result (λ pile. (size pile.places ≡ length orders.old) × (sorted (sooner S.Rank.Ranking.first) (held pile.places) ≡ [])) }
    {
        let places = Places::over(orders)?;
        Ok(Pile {
            places,
            side: PhantomData,
        })
    }
}

impl<'a, S: Side> Book for Pile<'a, S> {
    type Side = S;

    ghost capacity = { λ pile. size pile.places };

    ghost list = { λ pile. sorted (sooner S.Rank.Ranking.first) (held pile.places) };

    ghost places = { λ pile. pile.places.orders.now };

    fn put(&mut self, order: Order) -> Result<(), Refusal> {
        self.places.put_last(order)
    }

    fn count(&self) -> usize {
        self.places.count
    }

    fn count_of(&self, hour: u32) -> usize {
        count(self.places.held(), &OfHour(hour))
    }

    fn best(&self, hour: u32) -> Option<Order> {
        self.places.first_among::<S::Rank, _>(&OfHour(hour))
    }

    fn at(&self, position: usize) -> Option<Order> {
        self.places.listed_at::<S::Rank>(position)
    }

    fn find(&self, serial: u32) -> Option<Order> {
        first(self.places.held(), &WithSerial(serial))
    }

    fn cut(&mut self, hour: u32, energy: u32) -> Result<(), Refusal> {
        let place = self.places.soonest::<S::Rank, _>(&OfHour(hour));
        self.places.cut_at(place, energy)
    }

    fn withdraw(&mut self, serial: u32) -> Option<Order> {
        self.places.withdraw(serial)
    }

    fn drop_hour(&mut self, hour: u32) -> u64 {
        self.places.drop_hour(hour)
    }

    ghost sound = { λ pile. sorted_sound (sooner S.Rank.Ranking.first) pile.places pile.places.filled };

    ghost ranked = { λ pile. sorted_ranked (sooner S.Rank.Ranking.first) (sooner_laws S.Rank.Ranking.lawful) (held pile.places) pile.places.filled.4 };
}
