// One book put through its calls.
use crate::orders::{PLACES, order, orders};
use crate::trial::{put_all, read_back};
use book::book::Book;
use figures::refusal::Refusal;
use std::io;

/// Shows a book, or why it was not made: both are shown, so neither is handed on.
pub(crate) fn show<B: Book + Drop>(
    rt: &HostRuntime,
    title: &str,
    made: Result<B, Refusal>,
) -> io::Result<()> {
    match made {
        Ok(mut book) => show_calls(rt, title, &mut book),
        Err(refusal) => println!(rt; "{refusal}"),
    }
}

fn show_calls<B: Book>(rt: &HostRuntime, title: &str, book: &mut B) -> io::Result<()> {
    println!(rt; "{title}")?;
    println!(rt; "accepted {} of 8", put_all(book, &orders()))?;
    show_list(rt, book)?;
    println!(rt; "of hour 101: {}", book.count_of(101))?;
    if let Some(best) = book.best(101) {
        println!(rt; "best of hour 101: {best}")?;
    }
    if let Err(refusal) = book.cut(101, 1000) {
        println!(rt; "{refusal}")?;
    }
    if book.cut(101, 30).is_ok() {
        println!(rt; "cut by 30 kWh")?;
    }
    if let Some(order) = book.withdraw(2) {
        println!(rt; "withdrawn: {order}")?;
    }
    println!(rt; "hour 102 dropped with {} kWh", book.drop_hour(102))?;
    show_list(rt, book)
}

fn show_list<B: Book>(rt: &HostRuntime, book: &B) -> io::Result<()> {
    let mut table = [order(0, 0, 0, 0, 0); PLACES];
    let listed = read_back(book, &mut table);
    for order in &table[..listed] {
        println!(rt; "listed: {order}")?;
    }
    Ok(())
}
