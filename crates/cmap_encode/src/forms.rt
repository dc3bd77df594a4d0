//! The codes of characters in the encoding forms of Unicode. Unicode Standard, 3.9 and 3.10.

ghost use Rattle.std.specs.Prelude.{◌≡◌, ◌+◌, ◌-◌, ◌^◌, ◌<◌, ◌≤◌, IfSome};
ghost use Rattle.cmap_values.specs.CodeLengths.{length_of};
ghost use Rattle.cmap_encode.specs.Forms.{HaveCodes, IsFormOf, last_with, scalar_code};

use crate::code::Code;
use crate::outside::may_begin;
use cmap_layers::layers::Layers;
use cmap_values::code_length::CodeLength;

/// An encoding form, with the high byte first.
#[derive(Clone, Copy)]
pub(crate) enum Form {
    Utf8,
    Utf16,
    Utf32,
}

/// The last character.
pub(crate) const LAST_CHARACTER: u32 = 0x10_FFFF;

/// Consecutive characters that have consecutive codes, or that have no codes.
#[derive(Clone, Copy)]
pub(crate) struct CharacterRow {
    /// The code of the first character.
    pub(crate) code: Option<Code>,
    /// The last of the characters.
    pub(crate) last: u32,
}

impl Form {
    /// The form in which a map from Unicode has its codes, by the shortest of its codespace ranges.
    pub(crate) fn of(unicode: &Layers) -> Form
        ensures { IsFormOf unicode.now result }
    {
        // prefixes of no bytes: any codespace range of the length has them
        let one = Code {
            number: 0,
            len: CodeLength::One,
        };
        if may_begin(unicode, one, 1) {
            return Form::Utf8;
        }
        let two = Code {
            number: 0,
            len: CodeLength::Two,
        };
        if may_begin(unicode, two, 2) {
            return Form::Utf16;
        }
        Form::Utf32
    }

    /// The codes of characters from `first` on.
    pub(crate) fn row(self, first: u32) -> CharacterRow
        requires { first ≤ LAST_CHARACTER }
        ensures within { (first ≤ result.last) × (result.last ≤ LAST_CHARACTER) }
        ensures codes { HaveCodes self first result.last result.code }
        ensures fits { IfSome result.code
            (λ code. code.number + (result.last - first) < 256 ^ length_of code.len) }
    {
        if 0xD800 <= first && first <= 0xDFFF {
            return CharacterRow {
                code: None,
                last: 0xDFFF,
            };
        }
        CharacterRow {
            code: Some(self.code_of(first)),
            last: self.last_with(first),
        }
    }

    /// The code of a character that is no surrogate.
    fn code_of(self, character: u32) -> Code
        requires { character ≤ LAST_CHARACTER }
        ensures code { result ≡ scalar_code self character }
        ensures fits { result.number < 256 ^ length_of result.len }
    {
        match self {
            Form::Utf8 => utf8_code(character),
            Form::Utf16 => utf16_code(character),
            Form::Utf32 => Code {
                number: character,
                len: CodeLength::Four,
            },
        }
    }

    /// The last character up to which codes are consecutive from the code of this character on.
    /// This character is no surrogate.
    fn last_with(self, character: u32) -> u32
        requires { character ≤ LAST_CHARACTER }
        ensures { result ≡ last_with self character }
    {
        match self {
            Form::Utf8 if character < 0x80 => 0x7F,
            Form::Utf8 => character - character % 0x40 + 0x3F,
            Form::Utf16 if 0x1_0000 <= character => character - character % 0x400 + 0x3FF,
            Form::Utf16 if 0xE000 <= character => 0xFFFF,
            Form::Utf32 if 0xE000 <= character => LAST_CHARACTER,
            Form::Utf16 | Form::Utf32 => 0xD7FF,
        }
    }
}

/// The code of a character in UTF-8.
fn utf8_code(character: u32) -> Code
    requires { character ≤ LAST_CHARACTER }
    ensures code { result ≡ scalar_code Form.Utf8 character }
    ensures fits { result.number < 256 ^ length_of result.len }
{
    let above = character / 0x40;
    let last = 0x80 + character % 0x40;
    if character < 0x80 {
        return Code {
            number: character,
            len: CodeLength::One,
        };
    }
    if character < 0x800 {
        return Code {
            number: (0xC0 + above) * 0x100 + last,
            len: CodeLength::Two,
        };
    }
    let middle = 0x80 + above % 0x40;
    if character < 0x1_0000 {
        return Code {
            number: ((0xE0 + above / 0x40) * 0x100 + middle) * 0x100 + last,
            len: CodeLength::Three,
        };
    }
    let first = (0xF0 + above / 0x1000) * 0x100 + (0x80 + above / 0x40 % 0x40);
    Code {
        number: (first * 0x100 + middle) * 0x100 + last,
        len: CodeLength::Four,
    }
}

/// The code of a character in UTF-16: a pair of surrogates is one code.
fn utf16_code(character: u32) -> Code
    requires { character ≤ LAST_CHARACTER }
    ensures code { result ≡ scalar_code Form.Utf16 character }
    ensures fits { result.number < 256 ^ length_of result.len }
{
    if character < 0x1_0000 {
        return Code {
            number: character,
            len: CodeLength::Two,
        };
    }
    let offset = character - 0x1_0000;
    Code {
        number: (0xD800 + offset / 0x400) * 0x1_0000 + (0xDC00 + offset % 0x400),
        len: CodeLength::Four,
    }
}
