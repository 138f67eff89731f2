// How long the runs over a book take.
use crate::runs::{cut, drain, fill};
use book::book::Book;
use std::io;
use std::rt::Clock;
use std::time::{Duration, Instant};

/// A run: how many calls the book accepted, and how long it took.
#[derive(Clone, Copy)]
pub struct Run {
    pub accepted: usize,
    pub time: Duration,
}

/// The three runs over one book.
#[derive(Clone, Copy)]
pub struct Runs {
    pub fill: Run,
    pub cut: Run,
    pub drain: Run,
}

/// Puts `count` orders into an empty book, makes as many cuts, and empties the book.
pub(crate) fn time_runs<B: Book>(clock: &impl Clock, book: &mut B, count: u32) -> io::Result<Runs> {
    Ok(Runs {
        fill: time_run(clock, || fill(book, count))?,
        cut: time_run(clock, || cut(book, count))?,
        drain: time_run(clock, || drain(book))?,
    })
}

fn time_run<F: FnOnce() -> usize>(clock: &impl Clock, run: F) -> io::Result<Run>
    requires { F.pre run }
{
    let start = Instant::now(clock)?;
    let accepted = run();
    let time = start.elapsed(clock)?;
    Ok(Run { accepted, time })
}
