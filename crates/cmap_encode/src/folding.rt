//! Texts in the characters that are usually written.

ghost use Rattle.std.specs.Prelude.{◌≡◌, ◌++◌, IfOk, OnOk, chars, encode_utf8_all};
ghost use Rattle.std.specs.String.{string_bytes};
ghost use Rattle.cmap_encode.specs.Folding.{folded, folded_character, is_form, is_unusual, letters_of, usual};

use crate::alike::{alike_to, national_of};
use crate::letters::is_selector;
use std::alloc::{AllocError, Global};
use ucd_normal::compatibility_decomposition;

/// A text in the characters that are usually written for what it shows, so that the text can be searched and split.
///
/// Variation selectors are dropped. Presentation forms of Latin, Armenian, Hebrew and Arabic letters, and the radicals
/// of Kangxi, become the characters to which the Unicode Standard decomposes them: its chapters 9 and 23. Spaces of
/// other widths, punctuation of vertical writing and the half-width bar become the usual character.
///
/// It fails only if memory runs out.
pub fn fold(alloc: Global, text: &str) -> Result<String, AllocError>
    ensures { IfOk result (λ shown. string_bytes shown ≡ encode_utf8_all (folded (chars text.now))) }
{
    let mut shown = String::new(alloc);
    for character in text.chars() {
        push_folded(&mut shown, character)?;
    }
    Ok(shown)
}

/// Adds the usual characters for a character.
fn push_folded(text: &mut String, character: char) -> Result<(), AllocError>
    ensures { OnOk result (string_bytes text.new
        ≡ string_bytes text.old ++ encode_utf8_all (folded_character character)) }
{
    if is_selector(character) {
        return Ok(());
    }
    if is_form(character) {
        return push_letters(text, character);
    }
    text.push(usual(character))
}

/// Adds the letters of a presentation form, or the form itself if it has no letters.
fn push_letters(text: &mut String, form: char) -> Result<(), AllocError>
    ensures { OnOk result (string_bytes text.new
        ≡ string_bytes text.old ++ encode_utf8_all (letters_of form)) }
{
    let letters = compatibility_decomposition(form);
    if letters.is_empty() {
        return text.push(form);
    }
    push_all(text, letters)
}

/// Adds characters.
fn push_all(text: &mut String, characters: &[char]) -> Result<(), AllocError>
    ensures { OnOk result (string_bytes text.new
        ≡ string_bytes text.old ++ encode_utf8_all characters.now) }
{
    for character in characters {
        text.push(*character)?;
    }
    Ok(())
}

/// Whether a character is a presentation form of letters, or a radical of Kangxi.
fn is_form(character: char) -> bool
    ensures { result ≡ is_form character }
{
    matches!(
        character,
        '\u{2F00}'..='\u{2FDF}' | '\u{FB00}'..='\u{FDFF}' | '\u{FE70}'..='\u{FEFF}'
    )
}

/// Whether a character is a space of another width, punctuation of vertical writing, or the half-width bar.
fn is_unusual(character: char) -> bool
    ensures { result ≡ is_unusual character }
{
    matches!(
        character,
        '\u{A0}'
            | '\u{2000}'..='\u{200A}'
            | '\u{202F}'
            | '\u{205F}'
            | '\u{FE10}'..='\u{FE19}'
            | '\u{FE30}'..='\u{FE48}'
            | '\u{FFE8}'
    )
}

/// The usual character for a character: the first character of its line, if the character is unusual and has a line,
/// else the character itself.
fn usual(character: char) -> char
    ensures { result ≡ usual character }
{
    if !is_unusual(character) {
        return character;
    }
    match alike_to(character) {
        [first, ..] => *first,
        [] => match national_of(character) {
            [first, ..] => *first,
            [] => character,
        },
    }
}
