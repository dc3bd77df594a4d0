//! The characters that are printed as escapes. The Unicode Standard, 4.5.

ghost use Rattle.std.specs.Prelude.{◌≡◌};
ghost use Rattle.cmap_io.specs.Shown.{is_hidden as is_hidden_in};
ghost use Rattle.ucd_category.specs.GeneralCategory.{general_category};
ghost use Rattle.ucd_table.specs.Rows.{HasExactly, IsRising, in_ranges};

mod ranges;

use self::ranges::HIDDEN;

/// Whether a character is a control or format character, a separator of lines or paragraphs, for private use, or
/// unassigned.
pub(crate) fn is_hidden(character: char) -> bool
    ensures { result ≡ is_hidden_in (general_category character) }
{
    is_in(hidden(), u32::from(character))
}

/// The code points of these categories in Unicode 18.0.0.
fn hidden() -> &'static [(u32, u32)]
    ensures rising { IsRising result.now }
    ensures exact { HasExactly result.now (λ code_point. is_hidden_in (general_category code_point)) }
{
    &HIDDEN
}

/// Whether a code point lies in one of these ranges. Each range has its first and its last code point.
fn is_in(ranges: &[(u32, u32)], code_point: u32) -> bool
    requires { IsRising ranges.now }
    ensures { result ≡ in_ranges ranges.now code_point }
{
    let before = ranges.partition_point(|range| range.1 < code_point);
    match ranges.get(before) {
        Some(range) => range.0 <= code_point,
        None => false,
    }
}
