//! The codes of a string, with their CIDs and their texts.

ghost use Rattle.std.specs.Prelude.{OnOk, string_bytes};
ghost use Rattle.cmap_io.specs.Escapes.{AddsLine, AddsOfLine};

use cmap_encode::fold;
use cmap_io::digits::{byte_digits, code_digits, push_code};
use cmap_io::object::Object;
use cmap_io::value::Value;
use cmap_io::{escape, json};
use cmap_unicode::{Character, Extractor};
use hayro_cmap::{BfString, StringCode};
use std::alloc::{AllocError, Global};

/// The character that is printed for a code without a text.
const NO_TEXT: char = '\u{FFFD}';

/// How texts are shown.
#[derive(Clone, Copy)]
pub enum Texts {
    /// The texts as the CMaps give them.
    Exact,
    /// The texts in the characters that are usually written.
    Folded,
}

impl Texts {
    /// A text as it is shown.
    fn shown(self, alloc: Global, text: String) -> Result<String, AllocError> {
        match self {
            Texts::Exact => Ok(text),
            Texts::Folded => fold(alloc, text.as_str()),
        }
    }

    /// The codes of a string, with their texts as they are shown.
    fn characters(
        self,
        alloc: Global,
        font: &Extractor<'_>,
        string: &[u8],
    ) -> Result<Vec<Character>, AllocError> {
        let given = font.characters(alloc, string)?;
        let mut characters = Vec::with_capacity(alloc, given.len())?;
        for character in given {
            let Character { code, cid, text } = character;
            let text = match text {
                Some(text) => Some(self.shown_of_code(alloc, text)?),
                None => None,
            };
            characters.push(Character { code, cid, text })?;
        }
        Ok(characters)
    }

    /// The text of a code as it is shown. A folded text is a string, even if it has one character.
    fn shown_of_code(self, alloc: Global, text: BfString) -> Result<BfString, AllocError> {
        if let Texts::Exact = self {
            return Ok(text);
        }
        let text = match text {
            BfString::Char(only) => {
                let mut text = String::new(alloc);
                text.push(only)?;
                text
            }
            BfString::String(text) => text,
        };
        Ok(BfString::String(fold(alloc, text.as_str())?))
    }
}

/// The texts of codes in a row.
#[derive(Drop)]
struct Joined {
    /// The texts, with U+FFFD for each code without one.
    text: String,
    /// Whether each code has a text.
    is_whole: bool,
}

impl Joined {
    /// No texts.
    fn new(alloc: Global) -> Joined {
        Joined {
            text: String::new(alloc),
            is_whole: true,
        }
    }

    /// The texts of these codes.
    fn of(alloc: Global, characters: &[Character]) -> Result<Joined, AllocError> {
        let mut joined = Joined::new(alloc);
        for character in characters {
            joined.add(&character.text)?;
        }
        Ok(joined)
    }

    /// Adds the text of a code.
    fn add(&mut self, text: &Option<BfString>) -> Result<(), AllocError> {
        match text {
            Some(BfString::Char(character)) => self.text.push(*character),
            Some(BfString::String(text)) => self.text.push_str(text.as_str()),
            None => {
                self.is_whole = false;
                self.text.push(NO_TEXT)
            }
        }
    }
}

/// Adds a line for each code of a string by the CMaps of a font, and a line for the text of the string.
pub fn push_codes(
    alloc: Global,
    out: &mut String,
    font: &Extractor<'_>,
    string: &[u8],
    texts: Texts,
) -> Result<(), AllocError> {
    let characters = texts.characters(alloc, font, string)?;
    for character in &characters {
        push_code_line(out, character)?;
    }
    push_joined(out, &Joined::of(alloc, &characters)?)
}

/// Adds the line of the text of a string.
fn push_joined(out: &mut String, joined: &Joined) -> Result<(), AllocError> {
    out.push_str("text  ")?;
    escape::push_quoted(out, joined.text.as_str())?;
    out.push('\n')
}

/// Adds the object of a string, and ends the line.
pub fn push_json(
    alloc: Global,
    out: &mut String,
    font: &Extractor<'_>,
    string: &[u8],
    texts: Texts,
) -> Result<(), AllocError>
    ensures line { OnOk result (AddsLine (string_bytes out.old) (string_bytes out.new)) }

    // This holds even if memory runs out.
    ensures printable { AddsOfLine (string_bytes out.old) (string_bytes out.new) }
{
    let object = string_object(alloc, font, string, texts)?;
    json::push_line(alloc, out, &object)
}

/// Adds a line with the text of a string, with U+FFFD for each code without a text. The result states whether each
/// code has a text.
pub fn push_text_line(
    alloc: Global,
    out: &mut String,
    font: &Extractor<'_>,
    string: &[u8],
    texts: Texts,
) -> Result<bool, AllocError> {
    let Joined { text, is_whole } = text_of(alloc, font, string)?;
    let text = texts.shown(alloc, text)?;
    escape::push_text(out, text.as_str())?;
    out.push('\n')?;
    Ok(is_whole)
}

/// Adds the object of the text of a string, and ends the line. The result states whether each code has a text.
pub fn push_text_json(
    alloc: Global,
    out: &mut String,
    font: &Extractor<'_>,
    string: &[u8],
    texts: Texts,
) -> Result<bool, AllocError>
    ensures line { OnOk result (AddsLine (string_bytes out.old) (string_bytes out.new)) }

    // This holds even if memory runs out.
    ensures printable { AddsOfLine (string_bytes out.old) (string_bytes out.new) }
{
    let Joined { text, is_whole } = text_of(alloc, font, string)?;
    let object = text_object(alloc, texts.shown(alloc, text)?, string)?;
    json::push_line(alloc, out, &object)?;
    Ok(is_whole)
}

/// The text of a string by the CMaps of a font, code by code.
fn text_of(alloc: Global, font: &Extractor<'_>, string: &[u8]) -> Result<Joined, AllocError> {
    let mut joined = Joined::new(alloc);
    let mut left = string;
    while let Some(character) = font.next(alloc, left)? {
        left = &left[usize::from(character.code.byte_len)..];
        joined.add(&character.text)?;
    }
    Ok(joined)
}

fn text_object(alloc: Global, text: String, string: &[u8]) -> Result<Value, AllocError> {
    let mut object = Object::new(alloc);
    object.set_string("string", byte_digits(alloc, string));
    object.set("text", Value::from(text));
    object.finish()
}

fn string_object(
    alloc: Global,
    font: &Extractor<'_>,
    string: &[u8],
    texts: Texts,
) -> Result<Value, AllocError> {
    let characters = texts.characters(alloc, font, string)?;
    let Joined { text, .. } = Joined::of(alloc, &characters)?;
    let mut object = Object::new(alloc);
    object.set_string("string", byte_digits(alloc, string));
    object.set("text", Value::from(text));
    object.set_list("codes", code_objects(alloc, &characters));
    object.finish()
}

fn code_objects(alloc: Global, characters: &[Character]) -> Result<Vec<Value>, AllocError> {
    let mut objects = Vec::with_capacity(alloc, characters.len())?;
    for character in characters {
        objects.push(code_object(alloc, character)?)?;
    }
    Ok(objects)
}

/// Adds a line: the code in ten columns, the CID in twelve, the text, and a note if the code lies in no codespace
/// range or is cut short.
fn push_code_line(out: &mut String, character: &Character) -> Result<(), AllocError> {
    push_code_column(out, character.code)?;
    push_cid_column(out, character.cid)?;
    push_text_or_dash(out, &character.text)?;
    out.push_str(
        match (character.code.in_codespace, character.code.cut_short) {
            (true, _) => "\n",
            (false, false) => "  in no codespace range\n",
            (false, true) => "  cut short\n",
        },
    )
}

fn push_code_column(out: &mut String, code: StringCode) -> Result<(), AllocError> {
    out.push('<')?;
    push_code(out, code.byte_len, code.code)?;
    out.push_str(match code.byte_len {
        1 => ">      ",
        2 => ">    ",
        3 => ">  ",
        _ => ">",
    })
}

fn push_cid_column(out: &mut String, cid: Option<u32>) -> Result<(), AllocError> {
    match cid {
        Some(cid) => write!(out, "{cid:>12}  "),
        None => out.push_str("           -  "),
    }
}

/// Adds a text between quotation marks, or `-` if there is none.
pub(crate) fn push_text_or_dash(
    out: &mut String,
    text: &Option<BfString>,
) -> Result<(), AllocError> {
    match text {
        Some(BfString::Char(character)) => {
            escape::push_quoted(out, character.encode_utf8(&mut [0; 4]))
        }
        Some(BfString::String(text)) => escape::push_quoted(out, text.as_str()),
        None => out.push('-'),
    }
}

/// The value of a text, or `null` if there is none.
pub(crate) fn text_value(alloc: Global, text: &Option<BfString>) -> Result<Value, AllocError> {
    match text {
        Some(BfString::Char(character)) => {
            Value::try_from_str(alloc, character.encode_utf8(&mut [0; 4]))
        }
        Some(BfString::String(text)) => Value::try_from_str(alloc, text.as_str()),
        None => Ok(Value::Null),
    }
}

fn code_object(alloc: Global, character: &Character) -> Result<Value, AllocError> {
    let code = character.code;
    let mut object = Object::new(alloc);
    object.set_made("text", text_value(alloc, &character.text));
    object.set("cid", Value::from(character.cid));
    object.set_string("code", code_digits(alloc, code.byte_len, code.code));
    object.set_text("range", range_word(code));
    object.finish()
}

fn range_word(code: StringCode) -> &'static str {
    match (code.in_codespace, code.cut_short) {
        (true, _) => "inside",
        (false, false) => "outside",
        (false, true) => "cut short",
    }
}
