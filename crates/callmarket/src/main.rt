// The program: reads a batch of orders from standard input, and prints what it holds.
#![tactic(auto)]

mod line;
mod listing;
mod output;
mod page;
#[cfg(test)]
mod tests;

use listing::LONGEST;
use output::output;
use std::alloc::Global;
use std::io;
use std::io::Read;

fn main(rt: HostRuntime) -> anyhow::Result<()> {
    let heap = rt.alloc();
    let input = read_input(heap, rt.stdin())?;
    let text = output(heap, &input)?;
    print!(rt; "{text}")?;
    Ok(())
}

// The bytes of `input`, up to one more than a batch may have. No `From` makes a `u64` of a `usize`; the cast loses nothing.
fn read_input<R: Read + Drop>(heap: Global, input: R) -> io::Result<Vec<u8>> {
    let mut bytes = Vec::new(heap);
    input.take(LONGEST as u64 + 1).read_to_end(&mut bytes)?;
    Ok(bytes)
}
