//! The number of bytes of the codes of texts.

ghost use Rattle.std.specs.Prelude.{◌≡◌, ℕ, None, map, option_and_then, option_map};
ghost use Rattle.cmap_text_writer.specs.Lengths.{text_length};
ghost use Rattle.cmap_values.specs.CodeLengths.{length_of};
ghost use Rattle.cmap_values.specs.DeclarationsSeen.{codespace_seen};
ghost use Rattle.cmap_c_writer.specs.Given.{gives_text, is_other, kind_numbered, length_given, same_after, text_lengths_given};

use crate::code_lengths::code_length;
use crate::declaration::{Declaration, Kind};
use cmap_text_writer::TextLengths;
use cmap_values::code_length::CodeLength;
use cmap_values::declarations::Codespace;

/// The length that all declarations of texts give to their codes, if it is the same; otherwise the
/// lengths by the codespace ranges.
pub(crate) fn text_lengths(declarations: &[Declaration<'_>], spaces: &[Codespace]) -> TextLengths
    ensures { (code : ℕ) → text_length result code
        ≡ text_lengths_given declarations.now (map codespace_seen spaces.now) code }
{
    match same_length(declarations) {
        Some(len) => TextLengths::same(len),
        None => TextLengths::by(spaces),
    }
}

/// The length of the codes of texts, if all declarations of texts give the same.
fn same_length(declarations: &[Declaration<'_>]) -> Option<CodeLength>
    ensures { option_map length_of result ≡ option_and_then length_given (same_after None declarations.now) }
{
    let mut same = None;
    for declaration in declarations {
        if !is_text(declaration) {
            continue;
        }
        if is_other(same, declaration.byte_len) {
            return None;
        }
        same = Some(declaration.byte_len);
    }
    code_length(u32::from(same?))
}

/// Whether a declaration gives texts.
fn is_text(declaration: &Declaration<'_>) -> bool
    ensures { result ≡ gives_text (kind_numbered declaration.now.kind) }
{
    matches!(Kind::numbered(declaration.kind), Some(Kind::TextRange))
}

/// Whether this length differs from the one before.
fn is_other(before: Option<u16>, len: u16) -> bool
    ensures { result ≡ is_other before len }
{
    match before {
        Some(before) => before != len,
        None => false,
    }
}
