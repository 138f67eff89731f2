// The same calls on a shelf and on a pile, of bids and of asks. Each test runs one function over any
// book, so that the kinds are held to the same answers.
use crate::orders;
use book::book::Book;
use books::pile::Pile;
use books::shelf::Shelf;
use figures::order::Order;
use figures::refusal::{Part, Reason, Refusal};
use sides::asks::Asks;
use sides::bids::Bids;
use sides::side::Side;
use std::fmt::Debug;
use std::test::Fail;

// Fails where the two are not equal. `assert_eq!` may end the process, for which it wants the runtime itself, and
// these functions are not given it.
fn check_eq<T: PartialEq + Debug + Drop>(found: T, wanted: T) -> Result<(), Fail> {
    if found == wanted {
        return Ok(());
    }
    Err(Fail::new(format_args!("found {found:?}, and not {wanted:?}")))
}

fn order(hour: u32, serial: u32, energy: u32, limit: i32) -> Order {
    orders::order(31, hour, serial, energy, limit)
}

fn refused(reason: Reason) -> Result<(), Refusal> {
    Err(reason.refused_by(Part::Book))
}

fn serial_of(found: Option<Order>) -> u32 {
    found.map_or(0, |order| order.serial)
}

// Whatever is outside the figures is refused, in the order of the checks, and nothing is listed.
fn refuses_in_order<B: Book>(book: &mut B) -> Result<(), Fail> {
    let mut wrong = Order {
        hour: 1_000_025,
        serial: 0,
        member: 32,
        energy: 0,
        limit: -50_001,
    };
    check_eq(
        book.put(wrong),
        refused(Reason::MemberUnknown { member: 32 }),
    )?;
    wrong.member = 31;
    check_eq(
        book.put(wrong),
        refused(Reason::HourNotOpen { hour: 1_000_025 }),
    )?;
    wrong.hour = 1_000_024;
    check_eq(
        book.put(wrong),
        refused(Reason::EnergyOutOfRange { energy: 0 }),
    )?;
    wrong.energy = 1_000_001;
    check_eq(
        book.put(wrong),
        refused(Reason::EnergyOutOfRange { energy: 1_000_001 }),
    )?;
    wrong.energy = 1_000_000;
    check_eq(
        book.put(wrong),
        refused(Reason::LimitOutOfRange { limit: -50_001 }),
    )?;
    wrong.limit = 400_001;
    check_eq(
        book.put(wrong),
        refused(Reason::LimitOutOfRange { limit: 400_001 }),
    )?;
    wrong.limit = 400_000;
    check_eq(
        book.put(wrong),
        refused(Reason::SerialOutOfRange { serial: 0 }),
    )?;
    wrong.serial = 4_000_000_001;
    check_eq(
        book.put(wrong),
        refused(Reason::SerialOutOfRange {
            serial: 4_000_000_001,
        }),
    )?;
    check_eq(book.count(), 0)?;
    wrong.serial = 4_000_000_000;
    check_eq(book.put(wrong), Ok(()))?;
    check_eq(book.count(), 1)
}

// A book of two places takes two orders; a full book is full before a serial stands.
fn fills<B: Book>(book: &mut B) -> Result<(), Fail> {
    check_eq(book.put(order(7, 1, 1, 0)), Ok(()))?;
    check_eq(
        book.put(order(7, 1, 1, 0)),
        refused(Reason::SerialStands { serial: 1 }),
    )?;
    check_eq(book.put(order(6, 2, 1, 0)), Ok(()))?;
    check_eq(
        book.put(order(6, 2, 1, 0)),
        refused(Reason::BookFull { capacity: 2 }),
    )?;
    check_eq(serial_of(book.at(0)), 2)?;
    check_eq(serial_of(book.at(1)), 1)?;
    check_eq(book.at(2), None)?;
    check_eq(book.at(usize::MAX), None)
}

// Equal limits go by serial. A cut lowers the best order, and at 0 it leaves.
fn cuts<B: Book>(book: &mut B) -> Result<(), Fail> {
    check_eq(book.put(order(7, 9, 5, 100)), Ok(()))?;
    check_eq(book.put(order(7, 8, 4, 100)), Ok(()))?;
    check_eq(serial_of(book.best(7)), 8)?;
    check_eq(book.cut(7, 0), refused(Reason::CutTooLarge { energy: 0 }))?;
    check_eq(book.cut(7, 5), refused(Reason::CutTooLarge { energy: 5 }))?;
    check_eq(book.cut(8, 1), refused(Reason::CutTooLarge { energy: 1 }))?;
    check_eq(book.cut(7, 3), Ok(()))?;
    check_eq(book.best(7), Some(order(7, 8, 1, 100)))?;
    check_eq(book.cut(7, 1), Ok(()))?;
    check_eq(book.best(7), Some(order(7, 9, 5, 100)))?;
    check_eq(book.best(8), None)
}

// What is withdrawn is answered as it stands; what lapses is added up.
fn empties<B: Book>(book: &mut B) -> Result<(), Fail> {
    check_eq(book.put(order(7, 1, 1_000_000, 3)), Ok(()))?;
    check_eq(book.put(order(8, 2, 20, 2)), Ok(()))?;
    check_eq(book.put(order(7, 3, 999_999, 1)), Ok(()))?;
    check_eq(book.count_of(7), 2)?;
    check_eq(book.find(2), Some(order(8, 2, 20, 2)))?;
    check_eq(book.withdraw(4), None)?;
    check_eq(book.withdraw(2), Some(order(8, 2, 20, 2)))?;
    check_eq(book.find(2), None)?;
    check_eq(book.drop_hour(8), 0)?;
    check_eq(book.drop_hour(7), 1_999_999)?;
    check_eq(book.count(), 0)
}

// A test of one book, run on each kind, of bids and of asks, over so many places.
macro_rules! on_every_book {
    ($test:ident, $count:literal) => {{
        let any = order(7, 1, 1, 1);
        $test(&mut Shelf::<Bids>::new(&mut [any; $count])?)?;
        $test(&mut Shelf::<Asks>::new(&mut [any; $count])?)?;
        $test(&mut Pile::<Bids>::new(&mut [any; $count])?)?;
        $test(&mut Pile::<Asks>::new(&mut [any; $count])?)
    }};
}

#[test]
fn refuses_in_order_on_every_book() -> Result<(), Fail> {
    on_every_book!(refuses_in_order, 3)
}

#[test]
fn fills_on_every_book() -> Result<(), Fail> {
    on_every_book!(fills, 2)
}

#[test]
fn cuts_on_every_book() -> Result<(), Fail> {
    on_every_book!(cuts, 3)
}

#[test]
fn empties_on_every_book() -> Result<(), Fail> {
    on_every_book!(empties, 3)
}

// What the making of a book answers.
fn answer<B: Book + Drop>(made: Result<B, Refusal>) -> Result<(), Refusal> {
    let _book = made?;
    Ok(())
}

#[test]
fn makes_books_of_1_to_4096_places() -> Result<(), Fail> {
    let any = order(7, 1, 1, 1);
    let none = refused(Reason::PlacesOutOfRange { places: 0 });
    let many = refused(Reason::PlacesOutOfRange { places: 4097 });
    check_eq(answer(Shelf::<Bids>::new(&mut [])), none)?;
    check_eq(answer(Shelf::<Bids>::new(&mut [any])), Ok(()))?;
    check_eq(answer(Shelf::<Bids>::new(&mut [any; 4096])), Ok(()))?;
    check_eq(answer(Shelf::<Bids>::new(&mut [any; 4097])), many)?;
    check_eq(answer(Pile::<Asks>::new(&mut [])), none)?;
    check_eq(answer(Pile::<Asks>::new(&mut [any])), Ok(()))?;
    check_eq(answer(Pile::<Asks>::new(&mut [any; 4096])), Ok(()))?;
    check_eq(answer(Pile::<Asks>::new(&mut [any; 4097])), many)
}

#[test]
fn market_orders_have_the_best_limit_of_their_side() -> Result<(), Fail> {
    check_eq(Bids::MARKET, 400_000)?;
    check_eq(Bids::market_limit(), 400_000)?;
    check_eq(Asks::MARKET, -50_000)?;
    check_eq(Asks::market_limit(), -50_000)
}
