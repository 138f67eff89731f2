// Orders in a slice, found and inserted by rank.
ghost use Rattle.std.specs.Prelude.{◌≡◌, ◌-◌, ◌==◌, ◌&&◌, not, ◌+◌, ◌<◌, ◌≤◌, ◌++◌, length, take, drop};
ghost use Rattle.std.specs.List.{insert, prefix_len};
ghost use Rattle.sides.specs.Listing.{sooner, stands, rank_for, ranked_in, room_for, accepted};

use crate::ranking::Ranking;
use figures::order::Order;
use figures::refusal::{Reason, refuse_unless};

/// Whether `order` is listed before `other`: by hour, and then by rank.
pub fn is_sooner<R: Ranking>(order: &Order, other: &Order) -> bool
    ensures { result ≡ sooner R.Ranking.first order.now other.now }
{
    // The rank is an answer and no field, so there are no tuples to compare.
    order.hour < other.hour || order.hour == other.hour && R::comes_first(order, other)
}

/// Whether an order with `serial` is among them. One pass, up to it.
pub fn stands(orders: &[Order], serial: u32) -> bool
    ensures { result ≡ stands serial orders.now }
{
    // A loop, since `any`, `find` and `position` take nearly twice the time.
    for order in orders {
        if order.serial == serial {
            return true;
        }
    }
    false
}

/// How many at the start of `orders` are listed before `order`, or none where its serial stands among
/// them already. One pass: up to the rank it looks for both, and behind it for the serial.
pub fn rank<R: Ranking>(orders: &[Order], order: &Order) -> Option<usize>
    ensures { result ≡ rank_for (sooner R.Ranking.first) order.now orders.now }
{
    let rank = new_and_sooner::<R>(orders, order);
    let (_, behind) = orders.split_at(rank);
    (!stands(behind, order.serial)).then_some(rank)
}

// How many at the start have another serial and are listed before `order`.
fn new_and_sooner<R: Ranking>(orders: &[Order], order: &Order) -> usize
    ensures { result ≡ prefix_len (λ x. not (x.serial == order.now.serial) && sooner R.Ranking.first x order.now) orders.now }
{
    orders
        .iter()
        .take_while(|other| other.serial != order.serial && is_sooner::<R>(other, order))
        .count()
}

/// Inserts `order` by rank among the first `count` orders in `places`, unless no place is left behind
/// them or its serial stands among them already. One pass, and one shift of the orders behind it.
// The count stands beside the places, since what finds and inserts by rank is to work on any caller's slice.
pub fn insert<R: Ranking>(places: &mut [Order], count: usize, order: Order) -> Result<(), Reason>
    ensures answer { result ≡ room_for (length places.old) (take count places.old) order }
    ensures after { places.new ≡ accepted result (ranked_in (sooner R.Ranking.first) order (take count places.old) ++ drop (count + 1) places.old) places.old }
{
    let capacity = places.len();
    refuse_unless(count < capacity, Reason::BookFull { capacity })?;
    let serial = order.serial;
    let at = rank::<R>(&places[..count], &order).ok_or(Reason::SerialStands { serial })?;
    insert_at(&mut places[..=count], at, order);
    Ok(())
}

// Puts an order at `at`; those from there on move one place further, and the last of them falls off.
fn insert_at(orders: &mut [Order], at: usize, order: Order)
    requires { at < length orders.old }
    ensures { orders.new ≡ insert (take (length orders.old - 1) orders.old) at order }
{
    let last = orders.len() - 1;
    orders.copy_within(at..last, at + 1);
    orders[at] = order;
}
