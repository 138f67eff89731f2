// The text of some lines.
ghost use Rattle.std.specs.Prelude.{◌≡◌, IfOk, string_bytes};
ghost use Rattle.callmarket.specs.Lines.{page};

use crate::line::Line;
use std::alloc::{AllocError, Global};

/// The lines as they are printed, one below the other.
pub fn print_page(heap: Global, lines: &[Line]) -> Result<String, AllocError>
    ensures { IfOk result (λ text. string_bytes text ≡ page lines.now) }
{
    let mut text = String::new(heap);
    for line in lines {
        writeln!(text, "{line}")?;
    }
    Ok(text)
}
