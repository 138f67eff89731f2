// What both kinds of book do with their places. That the number of places stays, and that a refusal leaves
// them as they were, is said of two states, so it stands in the clauses and not in the type.
ghost use Rattle.std.specs.Prelude.{◌≡◌, ◌<◌, [], ◌∷◌, ◌++◌, length, IfOk, IfSome, filter};
ghost use Rattle.std.specs.List.{remove, slice_get, find};
ghost use Rattle.sides.specs.Listing.{accepted, ranked_in, room_for, sooner, StaysRanked, Untouched};
ghost use Rattle.book.specs.Lists.{of_hour, with_serial, without_first, total_energy};
ghost use Rattle.book.specs.Meaning.{checked_places, made_answer, put_answer, taking, other_hours};
ghost use Rattle.books.specs.Holding.{held, size, order_in, cut_at};

use crate::places::Places;
use book::criterion::{OfHour, WithSerial};
use book::refusing::{by_book, check_places};
use book::slices::{energy, place_of, remove, remove_all};
use figures::order::Order;
use figures::refusal::{Part, Reason, Refusal, refuse_unless};
use sides::ranking::Ranking;
use sides::slices::{insert, stands};

impl<'a> Places<'a> {
    /// The places, with no order in them.
    pub(crate) fn over(orders: &'a mut [Order]) -> Result<Places<'a>, Refusal>
        ensures answer { made_answer result ≡ checked_places (length orders.old) }
        ensures made { IfOk result (λ places. (size places ≡ length orders.old) × (held places ≡ [])) }
    {
        check_places(orders.len())?;
        Ok(Places { orders, count: 0 })
    }

    /// The orders, as they stand.
    pub(crate) fn held(&self) -> &[Order]
        ensures { result.now ≡ held self.now }
    {
        &self.orders[..self.count]
    }

    /// The order at a place.
    pub(crate) fn at(&self, place: usize) -> Option<Order>
        ensures { result ≡ slice_get (held self.now) place }
    {
        self.held().get(place).copied()
    }

    /// Puts an order in by rank.
    pub(crate) fn put_by_rank<R: Ranking>(&mut self, order: Order) -> Result<(), Refusal>
        ensures size { size self.new ≡ size self.old }
        ensures answer { result ≡ put_answer (size self.old) (held self.old) order }
        ensures list { held self.new ≡ accepted result (ranked_in (sooner R.Ranking.first) order (held self.old)) (held self.old) }
        ensures ranked { StaysRanked (sooner R.Ranking.first) (held self.old) (held self.new) }
        ensures untouched { Untouched result self.new.orders.now self.old.orders.now }
    {
        by_book(order.check())?;
        by_book(insert::<R>(self.orders, self.count, order))?;
        self.count += 1;
        Ok(())
    }

    /// Puts an order behind the others.
    pub(crate) fn put_last(&mut self, order: Order) -> Result<(), Refusal>
        ensures size { size self.new ≡ size self.old }
        ensures answer { result ≡ put_answer (size self.old) (held self.old) order }
        ensures list { held self.new ≡ accepted result (held self.old ++ order ∷ []) (held self.old) }
        ensures untouched { Untouched result self.new.orders.now self.old.orders.now }
    {
        by_book(order.check())?;
        by_book(self.check_room(&order))?;
        self.orders[self.count] = order;
        self.count += 1;
        Ok(())
    }

    /// Whether there is room for an order.
    fn check_room(&self, order: &Order) -> Result<(), Reason>
        ensures { result ≡ room_for (size self.now) (held self.now) order.now }
    {
        let capacity = self.orders.len();
        refuse_unless(self.count < capacity, Reason::BookFull { capacity })?;
        let serial = order.serial;
        refuse_unless(
            !stands(self.held(), serial),
            Reason::SerialStands { serial },
        )
    }

    /// Removes the order at a place.
    pub(crate) fn take_at(&mut self, at: usize) -> Option<Order>
        ensures size { size self.new ≡ size self.old }
        ensures answer { result ≡ slice_get (held self.old) at }
        ensures list { held self.new ≡ remove (held self.old) at }
    {
        let taken = remove(self.orders, self.count, at)?;
        self.count -= 1;
        Some(taken)
    }

    /// Removes the order with a serial.
    pub(crate) fn withdraw(&mut self, serial: u32) -> Option<Order>
        ensures size { size self.new ≡ size self.old }
        ensures answer { result ≡ find (with_serial serial) (held self.old) }
        ensures list { held self.new ≡ without_first (with_serial serial) (held self.old) }
    {
        let at = place_of(self.held(), &WithSerial(serial))?;
        self.take_at(at)
    }

    /// Takes energy off the order at a place, if one is named; it leaves when nothing of it is left.
    pub(crate) fn cut_at(&mut self, place: Option<usize>, energy: u32) -> Result<(), Refusal>
        requires { IfSome place (λ at. at < length (held self.old)) }
        ensures size { size self.new ≡ size self.old }
        ensures answer { result ≡ taking energy (order_in (held self.old) place) }
        ensures list { held self.new ≡ accepted result (cut_at place energy (held self.old)) (held self.old) }
        ensures untouched { Untouched result self.new.orders.now self.old.orders.now }
    {
        let too_large = Reason::CutTooLarge { energy };
        let at = place.ok_or(too_large.refused_by(Part::Book))?;
        let left = self.orders[at].energy;
        by_book(refuse_unless((1..=left).contains(&energy), too_large))?;
        if energy == left {
            let _ = self.take_at(at);
        } else {
            self.orders[at].energy -= energy;
        }
        Ok(())
    }

    /// Removes the orders of an hour, and answers their total energy.
    pub(crate) fn drop_hour(&mut self, hour: u32) -> u64
        ensures size { size self.new ≡ size self.old }
        ensures answer { result ≡ total_energy (filter (of_hour hour) (held self.old)) }
        ensures list { held self.new ≡ other_hours hour (held self.old) }
    {
        let lapsed = energy(self.held(), &OfHour(hour));
        self.count = remove_all(self.orders, self.count, &OfHour(hour));
        // 4,096 orders have less than 2^64 kWh.
        lapsed as u64
    }
}
