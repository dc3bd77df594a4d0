//! Whether a map has codes of a length, and the lengths with which codes are printed.

use crate::layer::Layer;
use crate::layers::Layers;
use cmap_values::code_length::CodeLength;
use cmap_values::range::Range;

/// Whether a codespace range, or a declaration of CIDs or notdefs, of some layer has codes of this
/// length.
pub fn has_codes(layers: &Layers, len: CodeLength) -> bool {
    layers
        .as_slice()
        .iter()
        .any(|layer| declares_codes(layer, len))
}

fn declares_codes(layer: &Layer, len: CodeLength) -> bool {
    layer.cids(len).decl_count() > 0
        || layer.notdefs(len).decl_count() > 0
        || layer.codespaces().iter().any(|space| space.len == len)
}

/// The number of bytes that a code needs.
fn byte_count(code: u32) -> u8 {
    match code {
        0..0x100 => 1,
        0x100..0x1_0000 => 2,
        0x1_0000..0x100_0000 => 3,
        _ => 4,
    }
}

/// The number of bytes that the codes of a range need.
pub fn fewest_bytes(range: Range) -> u8 {
    byte_count(range.start.max(range.end))
}

/// The number of bytes with which a code of a declaration for codes of `byte_len` bytes is printed: `byte_len`, or
/// more if the code needs more. A declaration has the length of its first code, and its last code may be longer.
pub fn printed_len(byte_len: u8, code: u32) -> u8 {
    byte_len.max(byte_count(code))
}

/// The number of bytes with which the codes of a text are printed; a file's declaration of texts has no code
/// length. It is the least number of bytes in which all codes fit and with which the first code lies in a codespace
/// range. If the first code lies in no range, it is the least number in which all codes fit.
pub fn text_code_len(layers: &Layers, range: Range) -> u8 {
    let fewest = fewest_bytes(range);
    for byte_len in fewest..=4 {
        if layers.in_codespace(range.start, byte_len) {
            return byte_len;
        }
    }
    fewest
}
