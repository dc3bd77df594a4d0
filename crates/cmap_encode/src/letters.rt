//! Characters that belong to the character before them.

ghost use Rattle.std.specs.Prelude.{◌≡◌};
ghost use Rattle.cmap_encode.specs.Letters as letters;

/// Consecutive characters.
#[derive(Clone, Copy)]
pub(crate) struct Row {
    pub(crate) first: u32,
    pub(crate) count: u32,
}

/// The block Variation Selectors. The Unicode Standard, 23.4.
pub(crate) const SELECTORS: Row = Row {
    first: 0xFE00,
    count: 16,
};

/// The block Variation Selectors Supplement.
pub(crate) const SUPPLEMENT: Row = Row {
    first: 0xE_0100,
    count: 240,
};

/// Whether a character is a variation selector. The Unicode Standard, 23.4.
pub(crate) fn is_selector(character: char) -> bool
    ensures { result ≡ letters.is_selector character }
{
    matches!(character, '\u{FE00}'..='\u{FE0F}' | '\u{E0100}'..='\u{E01EF}')
}

/// Whether a character is a mark of the letter before it: a diacritical mark, a vowel or a final of old or
/// new jamo, a mark for symbols, a voiced sound mark, or a variation selector.
pub(crate) fn is_mark(character: char) -> bool
    ensures { result ≡ letters.is_mark character }
{
    is_selector(character)
        || matches!(
            character,
            '\u{300}'..='\u{36F}'
                | '\u{1160}'..='\u{11FF}'
                | '\u{20D0}'..='\u{20FF}'
                | '\u{3099}'..='\u{309A}'
                | '\u{D7B0}'..='\u{D7FB}'
        )
}
