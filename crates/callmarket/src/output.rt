// What the program writes.
ghost use Rattle.std.specs.Prelude.{IfOk, string_bytes};
ghost use Rattle.callmarket.specs.Output.{Output};

use crate::listing::listing;
use crate::page::print_page;
use std::alloc::Global;

/// The text that the program writes when `input` is what it was given.
pub fn output(heap: Global, input: &[u8]) -> anyhow::Result<String>
    ensures { IfOk result (λ text. Output input.now (string_bytes text)) }
{
    let lines = listing(heap, input)?;
    Ok(print_page(heap, &lines)?)
}
