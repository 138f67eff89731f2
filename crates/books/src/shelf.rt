// A book whose places hold the orders as they are listed.
ghost use Rattle.std.specs.Prelude.{take};
ghost use Rattle.sides.specs.Listing.{Ranked, Ranked_prop, sooner};

use crate::places::Places;
use sides::side::Side;
use std::marker::PhantomData;

pub mod calls;

/// A book that keeps its orders in listed order: the best of an hour stands first, and an order that is
/// put shifts those behind it.
#[derive(Drop)]
pub struct Shelf<'a, S: Side> {
    places: Places<'a>,
    side: PhantomData<S>,
    ghost ranked: { Ranked (sooner S.Rank.Ranking.first) (take places.count places.orders.now) } by { Ranked_prop (sooner S.Rank.Ranking.first) (take places.count places.orders.now) },
}
