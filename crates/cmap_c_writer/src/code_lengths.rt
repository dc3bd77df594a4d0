//! The number of bytes of codes, as C gives it.

ghost use Rattle.std.specs.Prelude.{◌≡◌, option_map};
ghost use Rattle.cmap_values.specs.CodeLengths.{length_of};
ghost use Rattle.cmap_c_writer.specs.Given.{length_given};

use cmap_values::code_length::CodeLength;

/// The length of codes of `count` bytes; `None` unless `count` is one to four.
pub(crate) fn code_length(count: u32) -> Option<CodeLength>
    ensures { option_map length_of result ≡ length_given count }
{
    CodeLength::of(u8::try_from(count).ok()?)
}
