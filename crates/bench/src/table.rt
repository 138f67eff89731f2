// The printed table.
use crate::timing::{Run, Runs};
use std::io;

/// What the table shows of each run; the program's arguments choose it.
#[derive(Clone, Copy)]
pub enum Shown {
    /// The accepted calls, which are the same every time.
    Counts,
    /// The microseconds.
    Times,
}

impl Shown {
    // What stands in the column of a run. No `From` makes a `u128` of a `usize`; the cast loses nothing.
    fn figure(self, run: Run) -> u128 {
        match self {
            Shown::Counts => run.accepted as u128,
            Shown::Times => run.time.as_micros(),
        }
    }
}

/// A table, and where it is printed.
#[derive(Clone, Copy)]
pub(crate) struct Table<'a> {
    pub out: &'a HostRuntime,
    pub shown: Shown,
}

impl Table<'_> {
    /// Prints the names of the columns.
    pub(crate) fn print_header(&self) -> io::Result<()> {
        match self.shown {
            Shown::Counts => self
                .out
                .println("kind   orders    filled      cuts   drained"),
            Shown::Times => self
                .out
                .println("kind   orders   fill us    cut us  drain us"),
        }
    }

    /// Prints the line of one book.
    pub(crate) fn print_line(&self, kind: &str, orders: u32, runs: Runs) -> io::Result<()> {
        println!(self.out;
            "{kind:<5}{orders:>8}{:>10}{:>10}{:>10}",
            self.shown.figure(runs.fill),
            self.shown.figure(runs.cut),
            self.shown.figure(runs.drain)
        )
    }
}
