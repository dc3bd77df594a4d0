//! The lines of `cmap list`: declarations, or the values of consecutive codes.

ghost use Rattle.std.specs.Prelude.{OnOk, string_bytes};
ghost use Rattle.cmap_io.specs.Escapes.{AddsLine, AddsOfLine};

use crate::diff::Side;
use cmap_io::digits::{code_digits, push_code};
use cmap_io::escape::push_quoted;
use cmap_io::json;
use cmap_io::object::Object;
use cmap_io::value::Value;
use cmap_queries::code_lengths::{printed_len, text_code_len};
use cmap_queries::texts::text_string;
use hayro_cmap::runs::Range;
use hayro_cmap::{BfRange, CMap, utf16};
use std::alloc::{AllocError, Global};

/// A declaration of a layer, or the values of consecutive codes over all layers.
#[derive(Drop)]
pub struct Line {
    /// The number of bytes of the codes.
    pub(crate) byte_len: u8,
    /// The first and the last code.
    pub(crate) range: Range,
    pub(crate) given: Given,
}

impl Line {
    /// Whether the codes and the CIDs of another line continue the codes and the CIDs of this line.
    pub(crate) fn is_continued_by(&self, next: &Line) -> bool {
        if self.byte_len != next.byte_len
            || self.range.end.checked_add(1) != Some(next.range.start)
        {
            return false;
        }
        match (&self.given, &next.given) {
            (Given::Cids(first), Given::Cids(further)) => {
                let offset = next.range.start.saturating_sub(self.range.start);
                first.checked_add(offset) == Some(*further)
            }
            (Given::Notdef(cid), Given::Notdef(same)) => cid == same,
            _ => false,
        }
    }
}

/// The values that codes are given.
#[derive(Drop)]
pub(crate) enum Given {
    /// No value: the codes are a codespace range.
    Codespace,
    /// CIDs that count up from this CID.
    Cids(u32),
    /// This CID for each code.
    Notdef(u32),
    /// Texts, the first of which is this text.
    Texts(Option<String>),
}

impl Given {
    /// The word for the kind of values.
    fn kind(&self) -> &'static str {
        match self {
            Given::Codespace => "codespace",
            Given::Cids(_) => "cid",
            Given::Notdef(_) => "notdef",
            Given::Texts(_) => "text",
        }
    }
}

/// Adds the texts that a declaration gives the codes in a range.
pub(crate) fn add_texts_of(
    alloc: Global,
    lines: &mut Vec<Line>,
    map: &CMap,
    declared: &BfRange,
    range: Range,
) -> Result<(), AllocError> {
    let offset = range.start.saturating_sub(declared.range.start);
    let text = utf16::text(alloc, declared.units.as_slice(), offset)?;
    lines.push(Line {
        byte_len: text_code_len(map.layers(), range),
        range,
        given: Given::Texts(text_string(alloc, text)?),
    })?;
    Ok(())
}

/// Adds a declaration, such as `cid <8140> <817E> 633`, and ends the line.
pub fn push_line(out: &mut String, line: &Line) -> Result<(), AllocError> {
    out.push_str(line.given.kind())?;
    out.push(' ')?;
    push_range(out, line.byte_len, line.range)?;
    push_given(out, &line.given)?;
    out.push('\n')
}

/// Adds a range of codes in the form `<8140> <817E>`. The last code has more bytes if it needs
/// them.
pub(crate) fn push_range(out: &mut String, byte_len: u8, range: Range) -> Result<(), AllocError> {
    out.push('<')?;
    push_code(out, byte_len, range.start)?;
    out.push_str("> <")?;
    push_code(out, printed_len(byte_len, range.end), range.end)?;
    out.push('>')
}

/// Adds the first CID or the first text.
fn push_given(out: &mut String, given: &Given) -> Result<(), AllocError> {
    match given {
        Given::Codespace => Ok(()),
        Given::Cids(cid) => write!(out, " {cid}"),
        Given::Notdef(cid) => write!(out, " {cid}"),
        Given::Texts(None) => out.push_str(" -"),
        Given::Texts(Some(text)) => {
            out.push(' ')?;
            push_quoted(out, text.as_str())
        }
    }
}

/// The place of a line, as its object states.
#[derive(Clone, Copy)]
pub enum Place {
    /// In this layer; the top layer is layer 1.
    Layer(usize),
    /// Over all layers; the object doesn't state this place.
    AllLayers,
    /// In one of two maps.
    Side(Side),
}

/// Adds the object of a line, and ends the line.
pub fn push_json(
    alloc: Global,
    out: &mut String,
    line: Line,
    place: Place,
) -> Result<(), AllocError>
    ensures line { OnOk result (AddsLine (string_bytes out.old) (string_bytes out.new)) }

    // This holds even if memory runs out.
    ensures printable { AddsOfLine (string_bytes out.old) (string_bytes out.new) }
{
    let object = line_object(alloc, line, place)?;
    json::push_line(alloc, out, &object)
}

fn line_object(alloc: Global, line: Line, place: Place) -> Result<Value, AllocError> {
    let Range { start, end } = line.range;
    let end_len = printed_len(line.byte_len, end);
    let mut object = Object::new(alloc);
    match place {
        Place::Layer(layer) => object.set("layer", Value::from(layer)),
        Place::AllLayers => {}
        Place::Side(side) => object.set_text("side", side.word()),
    }
    object.set_text("kind", line.given.kind());
    object.set_string("first", code_digits(alloc, line.byte_len, start));
    object.set_string("last", code_digits(alloc, end_len, end));
    set_given(&mut object, line.given);
    object.finish()
}

fn set_given(object: &mut Object, given: Given) {
    match given {
        Given::Codespace => {}
        Given::Cids(cid) => object.set("cid", Value::from(cid)),
        Given::Notdef(cid) => object.set("cid", Value::from(cid)),
        Given::Texts(text) => object.set("text", Value::from(text)),
    }
}
