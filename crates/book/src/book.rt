// A book of resting orders.
ghost use Rattle.std.specs.Prelude.{◌≡◌, ℕ, List, length, filter};
ghost use Rattle.std.specs.List.{slice_get, find};
ghost use Rattle.figures.specs.declared.order.Order.{Order};
ghost use Rattle.sides.specs.Listing.{Ranked, sooner, ranked_in, accepted, Untouched};
ghost use Rattle.book.specs.Lists.{of_hour, with_serial, without_first, total_energy};
ghost use Rattle.book.specs.Meaning.{Sound, put_answer, best, cut_answer, cut_list, other_hours};

use figures::order::Order;
use figures::refusal::Refusal;
use sides::side::Side;

/// The resting orders of one side. A book means a capacity, which stays, and a list of orders by rising
/// hour and then by rank.
pub trait Book {
    /// Whose orders rest in it.
    type Side: Side;

    // The number of places that it was made with.
    ghost capacity: { Self → ℕ };

    // The resting orders, as they are listed.
    ghost list: { Self → List Order };

    // What stands in the places, whether or not it is listed. That the capacity stays, and what a refusal leaves,
    // is said of two states, so it stands in the clauses below and in no law.
    ghost places: { Self → List Order };

    /// Adds an order at its ranked position.
    fn put(&mut self, order: Order) -> Result<(), Refusal>
        ensures answer { result ≡ put_answer (capacity self.old) (list self.old) order }
        ensures list { list self.new ≡ accepted result (ranked_in (sooner Self.Side.Rank.Ranking.first) order (list self.old)) (list self.old) }
        ensures untouched { Untouched result (places self.new) (places self.old) }
        ensures capacity { capacity self.new ≡ capacity self.old };

    /// How many orders rest.
    fn count(&self) -> usize
        ensures { result ≡ length (list self.now) };

    /// How many orders of `hour` rest.
    fn count_of(&self, hour: u32) -> usize
        ensures { result ≡ length (filter (of_hour hour) (list self.now)) };

    /// The best order of `hour`.
    fn best(&self, hour: u32) -> Option<Order>
        ensures { result ≡ best hour (list self.now) };

    /// The order at `position`, from 0.
    fn at(&self, position: usize) -> Option<Order>
        ensures { result ≡ slice_get (list self.now) position };

    /// The order with `serial`.
    fn find(&self, serial: u32) -> Option<Order>
        ensures { result ≡ find (with_serial serial) (list self.now) };

    /// Takes `energy` off the best order of `hour`, which leaves when nothing of it is left.
    fn cut(&mut self, hour: u32, energy: u32) -> Result<(), Refusal>
        ensures answer { result ≡ cut_answer hour energy (list self.old) }
        ensures list { list self.new ≡ accepted result (cut_list hour energy (list self.old)) (list self.old) }
        ensures untouched { Untouched result (places self.new) (places self.old) }
        ensures capacity { capacity self.new ≡ capacity self.old };

    /// Removes the order with `serial`, and answers it.
    fn withdraw(&mut self, serial: u32) -> Option<Order>
        ensures answer { result ≡ find (with_serial serial) (list self.old) }
        ensures list { list self.new ≡ without_first (with_serial serial) (list self.old) }
        ensures capacity { capacity self.new ≡ capacity self.old };

    /// Removes the orders of `hour`, and answers their total energy.
    fn drop_hour(&mut self, hour: u32) -> u64
        ensures answer { result ≡ total_energy (filter (of_hour hour) (list self.old)) }
        ensures list { list self.new ≡ other_hours hour (list self.old) }
        ensures capacity { capacity self.new ≡ capacity self.old };

    // Every book of this kind is sound, in every state.
    ghost sound: { (book : Self) → Sound (capacity book) (list book) };

    // Its list is ranked, in every state.
    ghost ranked: { (book : Self) → Ranked (sooner Self.Side.Rank.Ranking.first) (list book) };
}
