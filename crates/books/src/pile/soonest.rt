// Which order of a pile is listed first, and which at a position.
ghost use Rattle.std.specs.Prelude.{◌≡◌, ◌<◌, true, length, IfSome};
ghost use Rattle.std.specs.List.{slice_get, find};
ghost use Rattle.sides.specs.Listing.{sooner};
ghost use Rattle.books.specs.Holding.{held, order_in};
ghost use Rattle.books.specs.Sorting.{sorted};

use crate::places::Places;
use book::criterion::Criterion;
use figures::order::Order;
use sides::ranking::Ranking;
use sides::slices::is_sooner;
use std::marker::PhantomData;

/// All orders.
#[derive(Drop)]
struct Every;

impl Criterion for Every {
    ghost passes = { λ _ _. true };

    fn passed_by(&self, _order: &Order) -> bool {
        true
    }
}

/// The orders that are listed behind one.
#[derive(Drop)]
struct Behind<R> {
    order: Order,
    rank: PhantomData<R>,
}

impl<R: Ranking> Criterion for Behind<R> {
    ghost passes = { λ behind. sooner R.Ranking.first behind.order };

    fn passed_by(&self, order: &Order) -> bool {
        is_sooner::<R>(&self.order, order)
    }
}

impl Places<'_> {
    /// The order that is listed first of those that pass. One pass.
    pub(super) fn first_among<R: Ranking, C: Criterion>(&self, criterion: &C) -> Option<Order>
        ensures { result ≡ find (C.Criterion.passes criterion.now) (sorted (sooner R.Ranking.first) (held self.now)) }
    {
        self.at(self.soonest::<R, C>(criterion)?)
    }

    /// The place of the order that is listed first of those that pass. One pass.
    pub(super) fn soonest<R: Ranking, C: Criterion>(&self, criterion: &C) -> Option<usize>
        ensures within { IfSome result (λ place. place < length (held self.now)) }
        ensures first { order_in (held self.now) result ≡ find (C.Criterion.passes criterion.now) (sorted (sooner R.Ranking.first) (held self.now)) }
    {
        // A loop, since a `reduce` for the order and a second pass for its place take half as much time again.
        let mut found: Option<(usize, &Order)> = None;
        for (place, order) in self.held().iter().enumerate() {
            if criterion.passed_by(order)
                && !found.is_some_and(|(_, best)| is_sooner::<R>(best, order))
            {
                found = Some((place, order));
            }
        }
        found.map(|(place, _)| place)
    }

    /// The order that is listed at `position`: the first, and then as often the one behind it.
    pub(super) fn listed_at<R: Ranking>(&self, position: usize) -> Option<Order>
        ensures { result ≡ slice_get (sorted (sooner R.Ranking.first) (held self.now)) position }
    {
        let mut found = self.first_among::<R, Every>(&Every);
        for _passed in 0..position {
            found = self.first_among::<R, Behind<R>>(&Behind {
                order: found?,
                rank: PhantomData,
            });
        }
        found
    }
}
