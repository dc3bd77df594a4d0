//! The answers of a map to queries.

ghost use Rattle.std.specs.Prelude.{OnOk, string_bytes};
ghost use Rattle.cmap_io.specs.Escapes.{AddsLine, AddsOfLine};

use crate::decode::{push_text_or_dash, text_value};
use cmap_io::json;
use cmap_io::object::Object;
use cmap_io::value::Value;
use cmap_queries::query::{Asked, Query};
use hayro_cmap::CMap;
use std::alloc::{AllocError, Global};

/// Adds a line: the argument of the query in thirteen columns, and its answer.
pub fn push_answer(
    alloc: Global,
    out: &mut String,
    map: &CMap,
    query: &Query<'_>,
) -> Result<(), AllocError> {
    push_word(alloc, out, query)?;
    push_answer_alone(alloc, out, map, query)?;
    out.push('\n')
}

fn push_word(alloc: Global, out: &mut String, query: &Query<'_>) -> Result<(), AllocError> {
    let word = word_of(alloc, query)?;
    write!(out, "{word:<13}")
}

fn push_answer_alone(
    alloc: Global,
    out: &mut String,
    map: &CMap,
    query: &Query<'_>,
) -> Result<(), AllocError> {
    match query.asked {
        Asked::Cid { byte_len } => match map.lookup_cid_code(query.code, byte_len) {
            Some(cid) => write!(out, "{cid}"),
            None => out.push('-'),
        },
        Asked::Text => push_text_or_dash(out, &map.lookup_bf_string(alloc, query.code)?),
    }
}

/// Adds the object of a query, and ends the line.
pub fn push_json(
    alloc: Global,
    out: &mut String,
    map: &CMap,
    query: &Query<'_>,
) -> Result<(), AllocError>
    ensures line { OnOk result (AddsLine (string_bytes out.old) (string_bytes out.new)) }

    // This holds even if memory runs out.
    ensures printable { AddsOfLine (string_bytes out.old) (string_bytes out.new) }
{
    let object = query_object(alloc, map, query)?;
    json::push_line(alloc, out, &object)
}

fn query_object(alloc: Global, map: &CMap, query: &Query<'_>) -> Result<Value, AllocError> {
    let mut object = Object::new(alloc);
    object.set_string("word", word_of(alloc, query));
    match query.asked {
        Asked::Cid { byte_len } => {
            let cid = map.lookup_cid_code(query.code, byte_len);
            object.set("cid", Value::from(cid));
        }
        Asked::Text => object.set_made("text", text_at(alloc, map, query.code)),
    }
    object.finish()
}

/// The value of the text of a code.
fn text_at(alloc: Global, map: &CMap, code: u32) -> Result<Value, AllocError> {
    let text = map.lookup_bf_string(alloc, code)?;
    text_value(alloc, &text)
}

/// The argument that spells a query.
fn word_of(alloc: Global, query: &Query<'_>) -> Result<String, AllocError> {
    match query.asked {
        Asked::Cid { byte_len } => format!(in alloc; "{byte_len}:{}", query.digits),
        Asked::Text => format!(in alloc; "bf:{}", query.digits),
    }
}
