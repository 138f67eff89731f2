// The program: runs each kind of book at three sizes, and prints a table of what it measured.
#![tactic(auto)]

ghost use Rattle.std.specs.Prelude.{◌≤◌};

use books::pile::Pile;
use books::shelf::Shelf;
use figures::bounds::MOST_PLACES;
use orders::order;
use sides::bids::Bids;
use std::{env, io};
use table::{Shown, Table};
use timing::time_runs;

mod orders;
mod runs;
mod table;
mod timing;

// Two outcomes, each with its own way out.
fn main(rt: HostRuntime) -> anyhow::Result<()> {
    match asked(&rt)? {
        Some(shown) => print_table(&Table { out: &rt, shown }),
        None => Ok(rt.println("usage: bench [counts]")?),
    }
}

// What the arguments ask for, if they are known.
fn asked(rt: &HostRuntime) -> io::Result<Option<Shown>> {
    let mut words = env::args(rt)?.skip(1);
    let Some(word) = words.next() else {
        return Ok(Some(Shown::Times));
    };
    let counts = word.as_str() == "counts" && words.next().is_none();
    Ok(counts.then_some(Shown::Counts))
}

fn print_table(table: &Table) -> anyhow::Result<()> {
    table.print_header()?;
    print_lines(table, 256)?;
    print_lines(table, 1_024)?;
    print_lines(table, 4_096)
}

// Prints the lines of the books that have room for just so many orders. No `From` makes a `usize` of a `u32`;
// the cast loses nothing.
fn print_lines(table: &Table, orders: u32) -> anyhow::Result<()>
    requires { orders ≤ 4096 }
{
    // Whatever stands in the places, a new book is empty.
    let mut places = [order(1); MOST_PLACES];
    let places = &mut places[..orders as usize];
    let shelf = time_runs(table.out, &mut Shelf::<Bids>::new(places)?, orders)?;
    table.print_line("shelf", orders, shelf)?;
    let pile = time_runs(table.out, &mut Pile::<Bids>::new(places)?, orders)?;
    table.print_line("pile", orders, pile)?;
    Ok(())
}
