//! The strings that show texts.

ghost use Rattle.std.specs.Prelude.{OnOk, string_bytes};
ghost use Rattle.cmap_io.specs.Escapes.{AddsLine, AddsOfLine};

use cmap_encode::{Encoder, Grade, Piece, Unencodable};
use cmap_io::digits::byte_digits;
use cmap_io::object::Object;
use cmap_io::value::Value;
use cmap_io::{escape, json};
use cmap_values::fault::Fault;
use std::alloc::{AllocError, Global};

/// The result of encoding a text.
#[derive(Drop)]
pub struct Encoded {
    /// The string that shows the text, or a string with other bytes for the characters that can't be shown.
    pub string: Option<Vec<u8>>,
    /// The pieces of the text, if they are asked for and the string shows the text.
    pub pieces: Option<Vec<Piece>>,
    /// The place from which on no string shows the text, if there is one.
    pub stop: Option<Unencodable>,
}

/// Requests beside the string of a text.
#[derive(Clone, Copy)]
pub struct Asked<'e> {
    /// The bytes that stand for each character that can't be shown.
    pub missing: Option<&'e [u8]>,
    /// Whether the pieces of the text are asked for.
    pub pieces: bool,
}

/// The string of a text.
pub fn string_of(
    alloc: Global,
    encoder: &Encoder,
    text: &str,
    asked: Asked<'_>,
) -> Result<Encoded, AllocError> {
    match encoder.encode(alloc, text) {
        Ok(string) => Ok(Encoded {
            string: Some(string),
            pieces: pieces_of(alloc, encoder, text, asked.pieces)?,
            stop: None,
        }),
        Err(Fault::Refused(stop)) => Ok(Encoded {
            string: with_missing(alloc, encoder, text, asked.missing)?,
            pieces: None,
            stop: Some(stop),
        }),
        Err(Fault::Memory) => Err(AllocError),
    }
}

fn with_missing(
    alloc: Global,
    encoder: &Encoder,
    text: &str,
    missing: Option<&[u8]>,
) -> Result<Option<Vec<u8>>, AllocError> {
    match missing {
        Some(missing) => Ok(Some(encoder.encode_lossy(alloc, text, missing)?)),
        None => Ok(None),
    }
}

fn pieces_of(
    alloc: Global,
    encoder: &Encoder,
    text: &str,
    asked: bool,
) -> Result<Option<Vec<Piece>>, AllocError> {
    if !asked {
        return Ok(None);
    }
    match encoder.pieces(alloc, text) {
        Ok(pieces) => Ok(Some(pieces)),
        Err(Fault::Refused(_)) => Ok(None),
        Err(Fault::Memory) => Err(AllocError),
    }
}

/// A piece of a text with its code.
#[derive(Clone, Copy)]
struct CodedPiece<'e> {
    text: &'e str,
    /// The bytes of the code; empty if no code stands for the piece.
    code: &'e [u8],
    grade: Grade,
}

/// The pieces of a text with their codes, or none.
fn coded_pieces<'e>(
    alloc: Global,
    text: &'e str,
    encoded: &'e Encoded,
) -> Result<Vec<CodedPiece<'e>>, AllocError> {
    match (&encoded.pieces, &encoded.string) {
        (Some(pieces), Some(string)) => with_codes(alloc, text, string, pieces),
        _ => Ok(Vec::new(alloc)),
    }
}

/// The pieces of a text, with their codes in its string.
fn with_codes<'e>(
    alloc: Global,
    text: &'e str,
    string: &'e [u8],
    pieces: &[Piece],
) -> Result<Vec<CodedPiece<'e>>, AllocError> {
    let mut coded = Vec::with_capacity(alloc, pieces.len())?;
    let (mut text, mut string) = (text, string);
    for piece in pieces {
        let Some((first, after)) = text.split_at_checked(piece.text_len) else {
            break;
        };
        let Some((code, rest)) = string.split_at_checked(usize::from(piece.code_len)) else {
            break;
        };
        coded.push(CodedPiece {
            text: first,
            code,
            grade: piece.grade,
        })?;
        (text, string) = (after, rest);
    }
    Ok(coded)
}

/// The name of a grade.
fn grade_word(grade: Grade) -> &'static str {
    match grade {
        Grade::Stated => "stated",
        Grade::Canonical => "canonical",
        Grade::Collection => "collection",
        Grade::Alike => "alike",
        Grade::National => "national",
    }
}

/// Adds a line for each piece of a text, if pieces were asked for: the code in twelve columns, or `-` for a piece
/// without a code, the grade in twelve, and the text.
pub fn push_pieces(
    alloc: Global,
    out: &mut String,
    text: &str,
    encoded: &Encoded,
) -> Result<(), AllocError> {
    for piece in &coded_pieces(alloc, text, encoded)? {
        let (code, grade) = (code_word(alloc, piece.code)?, grade_word(piece.grade));
        write!(out, "{code:<10}  {grade:<10}  ")?;
        escape::push_quoted(out, piece.text)?;
        out.push('\n')?;
    }
    Ok(())
}

/// A code between brackets, or `-` for a code without bytes.
fn code_word(alloc: Global, code: &[u8]) -> Result<String, AllocError> {
    if code.is_empty() {
        return String::from_str(alloc, "-");
    }
    let digits = byte_digits(alloc, code)?;
    format!(in alloc; "<{digits}>")
}

/// Adds a line with a string, or `-` where there is none.
pub fn push_string_line(
    alloc: Global,
    out: &mut String,
    encoded: &Encoded,
) -> Result<(), AllocError> {
    match &encoded.string {
        Some(string) => out.push_str(byte_digits(alloc, string)?.as_str())?,
        None => out.push('-')?,
    }
    out.push('\n')
}

/// Adds the object of a text and its string, and ends the line.
pub fn push_string_json(
    alloc: Global,
    out: &mut String,
    text: &str,
    encoded: &Encoded,
) -> Result<(), AllocError>
    ensures line { OnOk result (AddsLine (string_bytes out.old) (string_bytes out.new)) }

    // This holds even if memory runs out.
    ensures printable { AddsOfLine (string_bytes out.old) (string_bytes out.new) }
{
    let object = string_object(alloc, text, encoded)?;
    json::push_line(alloc, out, &object)
}

fn string_object(alloc: Global, text: &str, encoded: &Encoded) -> Result<Value, AllocError> {
    let mut object = Object::new(alloc);
    object.set_text("text", text);
    match &encoded.string {
        Some(string) => object.set_string("string", byte_digits(alloc, string)),
        None => object.set("string", Value::Null),
    }
    if encoded.pieces.is_some() {
        object.set_list("pieces", piece_objects(alloc, text, encoded));
    }
    if let Some(stop) = encoded.stop {
        object.set("byte", Value::from(stop.offset));
    }
    object.finish()
}

fn piece_objects(alloc: Global, text: &str, encoded: &Encoded) -> Result<Vec<Value>, AllocError> {
    let mut objects = Vec::new(alloc);
    for piece in &coded_pieces(alloc, text, encoded)? {
        objects.push(piece_object(alloc, piece)?)?;
    }
    Ok(objects)
}

fn piece_object(alloc: Global, piece: &CodedPiece<'_>) -> Result<Value, AllocError> {
    let mut object = Object::new(alloc);
    object.set_string("code", byte_digits(alloc, piece.code));
    object.set_text("grade", grade_word(piece.grade));
    object.set_text("text", piece.text);
    object.finish()
}
