//! The words that end a section when a text is read past its faults, and the brackets that take no place in it.

ghost use Rattle.std.specs.Prelude.{◌≡◌, bytes_eq};
ghost use Rattle.std.specs.List.{list_any};
ghost use Rattle.cmap_text.specs.Salvage as salvage;
ghost use Rattle.cmap_text.specs.SalvageSeen.{class_seen};

use super::pieces::Class;

/// The brackets that take no place of an entry.
const LONE_BRACKETS: &[&[u8]] = &[b"{", b"}", b"<<", b">>"];

/// The executable names that end a section.
const WORDS: &[&[u8]] = &[
    b"begincidrange",
    b"begincidchar",
    b"beginbfrange",
    b"beginbfchar",
    b"beginnotdefrange",
    b"beginnotdefchar",
    b"begincodespacerange",
    b"endcidrange",
    b"endcidchar",
    b"endbfrange",
    b"endbfchar",
    b"endnotdefrange",
    b"endnotdefchar",
    b"endcodespacerange",
    b"begincmap",
    b"endcmap",
    b"usecmap",
    b"begin",
    b"end",
    b"def",
    b"dict",
    b"dup",
    b"pop",
    b"currentdict",
    b"defineresource",
    b"findresource",
    b"endstream",
    b"endobj",
];

/// The class of an executable name in a section.
pub(super) fn class_of_name(name: &[u8]) -> Class
    ensures { class_seen result ≡ salvage.class_of_name name.now }
{
    if name == b"[".as_slice() {
        Class::OpenBracket
    } else if name == b"]".as_slice() {
        Class::CloseBracket
    } else if is_among(name, LONE_BRACKETS) {
        Class::Alone
    } else if is_among(name, WORDS) {
        Class::Word
    } else {
        Class::Part
    }
}

/// Whether a name is one of these.
fn is_among(name: &[u8], names: &[&[u8]]) -> bool
    ensures { result ≡ list_any (λ other. bytes_eq name.now other.now) names.now }
{
    for other in names {
        if name == *other {
            return true;
        }
    }
    false
}
