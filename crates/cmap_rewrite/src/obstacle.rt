//! The words for what a text can't express.

use cmap_io::digits::push_code;
use cmap_queries::code_lengths::fewest_bytes;
use cmap_text_writer::Obstacle;
use hayro_cmap::runs::Range;
use std::alloc::AllocError;

/// Adds what a text can't express, such as `the name of a file that it uses isn't a PostScript name`.
pub(crate) fn push_obstacle(out: &mut String, obstacle: Obstacle) -> Result<(), AllocError> {
    match obstacle {
        Obstacle::Use => out.push_str("the name of a file that it uses isn't a PostScript name"),
        Obstacle::Name => out.push_str("its CMapName isn't a PostScript name"),
        Obstacle::CustomFamily => out.push_str("a custom collection has the name of a known one"),
        Obstacle::LargeCode(code) => {
            write!(out, "the code {code:X} has more bytes than its length")
        }
        Obstacle::EmptyText(range) => push_empty(out, range),
    }
}

/// Adds that the codes of a range have a text without units. The codes are printed with as few bytes as they need.
fn push_empty(out: &mut String, range: Range) -> Result<(), AllocError> {
    let byte_len = fewest_bytes(range);
    out.push_str("an empty text for the codes <")?;
    push_code(out, byte_len, range.start)?;
    out.push_str("> to <")?;
    push_code(out, byte_len, range.end)?;
    out.push('>')
}
