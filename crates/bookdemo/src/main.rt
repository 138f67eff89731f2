// Shows that every kind of book and every ranking is used through the same calls: the same orders are
// put into shelves and piles, of bids, of asks and of bids under another ranking, and read back.
#![tactic(auto)]

mod latest;
mod orders;
mod show;
#[cfg(test)]
mod tests;
mod trial;

use books::pile::Pile;
use books::shelf::Shelf;
use latest::LateBids;
use orders::{PLACES, order};
use show::show;
use sides::asks::Asks;
use sides::bids::Bids;
use std::io;

fn main(rt: HostRuntime) -> io::Result<()> {
    let blank = order(0, 0, 0, 0, 0);
    show(
        &rt,
        "SHELF OF BIDS",
        Shelf::<Bids>::new(&mut [blank; PLACES]),
    )?;
    show(&rt, "PILE OF BIDS", Pile::<Bids>::new(&mut [blank; PLACES]))?;
    show(
        &rt,
        "SHELF OF ASKS",
        Shelf::<Asks>::new(&mut [blank; PLACES]),
    )?;
    show(&rt, "PILE OF ASKS", Pile::<Asks>::new(&mut [blank; PLACES]))?;
    show(
        &rt,
        "SHELF OF BIDS, LATEST FIRST",
        Shelf::<LateBids>::new(&mut [blank; PLACES]),
    )?;
    show(
        &rt,
        "PILE OF BIDS, LATEST FIRST",
        Pile::<LateBids>::new(&mut [blank; PLACES]),
    )
}
