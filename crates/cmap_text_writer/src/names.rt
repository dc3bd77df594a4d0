//! The bytes that names may have.

ghost use Rattle.std.specs.Prelude.{◌≡◌, ◌↔◌, IsTrue};
ghost use Rattle.std.specs.List.{list_all};
ghost use Rattle.cmap_tokens.specs.Bytes.{is_regular};
ghost use Rattle.cmap_tokens.specs.Tokens.{IsBracket};

use cmap_tokens::token::is_regular;

/// Whether these bytes are a literal name: all are regular.
pub(crate) fn is_name(bytes: &[u8]) -> bool
    ensures { result ≡ list_all is_regular bytes.now }
{
    bytes.iter().all(|byte| is_regular(*byte))
}

/// Whether these bytes are an executable name: a bracket.
pub(crate) fn is_bracket(bytes: &[u8]) -> bool
    ensures { IsTrue result ↔ IsBracket bytes.now }
{
    matches!(bytes, b"[" | b"]" | b"{" | b"}" | b"<<" | b">>")
}
