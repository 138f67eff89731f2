// Orders in a slice, found, counted and removed by a criterion.
ghost use Rattle.std.specs.Prelude.{◌≡◌, not, ◌++◌, length, take, drop, filter};
ghost use Rattle.std.specs.List.{slice_get, position, find};
ghost use Rattle.book.specs.Lists.{closed_up, total_energy};

use crate::criterion::Criterion;
use figures::order::Order;

/// The place of the first order that passes. One pass, up to it.
pub fn place_of<C: Criterion>(orders: &[Order], criterion: &C) -> Option<usize>
    ensures { result ≡ position (C.Criterion.passes criterion.now) orders.now }
{
    orders.iter().position(|order| criterion.passed_by(order))
}

/// The first order that passes. One pass, up to it.
pub fn first<C: Criterion>(orders: &[Order], criterion: &C) -> Option<Order>
    ensures { result ≡ find (C.Criterion.passes criterion.now) orders.now }
{
    orders
        .iter()
        .copied()
        .find(|order| criterion.passed_by(order))
}

/// How many orders pass. One pass.
pub fn count<C: Criterion>(orders: &[Order], criterion: &C) -> usize
    ensures { result ≡ length (filter (C.Criterion.passes criterion.now) orders.now) }
{
    // A sum, since to filter and count takes nearly twice the time.
    orders
        .iter()
        .map(|order| usize::from(criterion.passed_by(order)))
        .sum::<usize>()
}

/// The energy of the orders that pass. One pass.
pub fn energy<C: Criterion>(orders: &[Order], criterion: &C) -> u128
    ensures { result ≡ total_energy (filter (C.Criterion.passes criterion.now) orders.now) }
{
    orders
        .iter()
        .filter(|order| criterion.passed_by(order))
        .map(|order| u128::from(order.energy))
        .sum()
}

/// Removes the order at `at` from the first `count`, and closes the gap. One shift of those behind it.
pub fn remove(orders: &mut [Order], count: usize, at: usize) -> Option<Order>
    ensures answer { result ≡ slice_get (take count orders.old) at }
    ensures after { orders.new ≡ closed_up count at orders.old }
{
    let end = count.min(orders.len());
    let counted = &mut orders[..end];
    let removed = *counted.get(at)?;
    counted.copy_within(at + 1.., at);
    Some(removed)
}

/// Removes those that pass from the first `count`, and answers how many are left, in front of what the
/// places behind them held. One pass.
pub fn remove_all<C: Criterion>(orders: &mut [Order], count: usize, criterion: &C) -> usize
    ensures answer { result ≡ length (filter (λ x. not (C.Criterion.passes criterion.now x)) (take count orders.old)) }
    ensures after { orders.new ≡ filter (λ x. not (C.Criterion.passes criterion.now x)) (take count orders.old) ++ drop result orders.old }
{
    // By hand, since a slice has no `retain`.
    let mut left = 0;
    for i in 0..count.min(orders.len()) {
        let order = orders[i];
        if !criterion.passed_by(&order) {
            orders[left] = order;
            left += 1;
        }
    }
    left
}
