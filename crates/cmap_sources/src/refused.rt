//! The reason why a file is refused, as a line for people and as a JSON object.

use crate::fault_line::LineCounter;
use crate::reading::{Faults, Input};
use cmap_binary::is_marked_binary;
use cmap_io::escape::{escaped_names, push_name, push_text};
use cmap_io::json::push_value;
use cmap_io::object::Object;
use cmap_io::value::Value;
use cmap_lint::read_as::ReadAs;
use hayro_cmap::token::Scanner;
use hayro_cmap::{Bundle, Cause, NamedFile, NamedFiles, Reason, Refusal, Stop};
use std::alloc::{AllocError, Global};
use std::fmt::Write;

/// The place where the fault of a file is reported, and the reason.
#[derive(Clone, Copy)]
struct LocatedStop {
    stop: Stop,
    /// The line. A binary file has no lines.
    line: Option<usize>,
    /// What the part at fault is read as.
    read_as: Option<ReadAs>,
}

/// The place where reading stopped in the file at fault, which is the file of these bytes or a file that it uses.
/// `None` if no file is malformed.
fn stop_of<'n, N: NamedFile>(
    bytes: &[u8],
    files: &NamedFiles<'_, N, Bundle<'_>>,
    refusal: &Refusal<'n>,
    faults: Faults,
    lines: &mut LineCounter<'n>,
) -> Option<LocatedStop> {
    let Cause::Malformed(stop) = refusal.cause else {
        return None;
    };
    let name = refusal.names.last().copied();
    let file = file_at_fault(bytes, files, name);
    if files.bundle.is_some() && is_marked_binary(file) {
        return Some(LocatedStop {
            stop,
            line: None,
            read_as: None,
        });
    }
    let stop = Stop {
        offset: reported_offset(file, stop),
        reason: stop.reason,
    };
    Some(LocatedStop {
        stop,
        line: lines.line_of(name, file, stop.offset),
        read_as: read_as(file, stop, faults),
    })
}

/// What the part of a text at a fault is read as, if the text is read past its faults.
fn read_as(text: &[u8], fault: Stop, faults: Faults) -> Option<ReadAs> {
    match faults {
        Faults::First => None,
        Faults::All => ReadAs::of(text, fault),
    }
}

/// The offset at which the fault of a text is reported. A text is refused at its end for an unclosed string, and the
/// fault is reported at the bracket of the string.
fn reported_offset(text: &[u8], stop: Stop) -> usize {
    if stop.reason == Reason::UnclosedString && stop.offset == text.len() {
        first_malformed(text)
    } else {
        stop.offset
    }
}

/// The offset of the first piece of a text that is no token.
fn first_malformed(text: &[u8]) -> usize {
    let mut scanner = Scanner::new(text);
    for _ in 0..text.len() {
        let Ok(Some(_)) = scanner.next_token() else {
            break;
        };
    }
    scanner.next_start()
}

/// The bytes of the file at fault: the file of the last name, or the top file if there is no name.
fn file_at_fault<'f, N: NamedFile>(
    bytes: &'f [u8],
    files: &NamedFiles<'f, N, Bundle<'f>>,
    last: Option<&[u8]>,
) -> &'f [u8] {
    match last {
        Some(name) => files.find(name).unwrap_or(b""),
        None => bytes,
    }
}

/// Adds the reason why a file of these bytes is refused over `files`: the byte and the line at which reading stopped,
/// what is wrong there, the file at fault if it is another file, and what the part at fault is read as. All faults of
/// one file take the same `lines`, and another file takes a new counter.
pub fn push_refusal<'n, N: NamedFile>(
    out: &mut String,
    bytes: &[u8],
    files: &NamedFiles<'_, N, Bundle<'_>>,
    refusal: &Refusal<'n>,
    faults: Faults,
    lines: &mut LineCounter<'n>,
) -> Result<(), AllocError> {
    let last = refusal.names.last().copied();
    if let Cause::NoFile = refusal.cause {
        return push_named(out, "no file has the name /", last);
    }
    let Some(located) = stop_of(bytes, files, refusal, faults, lines) else {
        write!(out, "{}", refusal.cause)?;
        return push_named(out, ", in /", last);
    };
    push_stop(out, located)?;
    push_named(out, ", in /", last)?;
    push_read_as(out, located.read_as)
}

/// Adds the line of a refusal without its line end: the path, and the reason why the file is refused.
pub fn push_refusal_line<'n, N: NamedFile>(
    out: &mut String,
    input: Input<'_>,
    files: &NamedFiles<'_, N, Bundle<'_>>,
    refusal: &Refusal<'n>,
    faults: Faults,
    lines: &mut LineCounter<'n>,
) -> Result<(), AllocError> {
    push_text(out, input.path)?;
    out.push_str(": ")?;
    push_refusal(out, input.bytes, files, refusal, faults, lines)
}

/// The line of a fault of the file itself.
pub fn stop_line<N: NamedFile>(
    alloc: Global,
    input: Input<'_>,
    files: &NamedFiles<'_, N, Bundle<'_>>,
    stop: Stop,
    faults: Faults,
    lines: &mut LineCounter<'_>,
) -> Result<String, AllocError> {
    let refusal = Refusal {
        names: Vec::new(alloc),
        cause: Cause::Malformed(stop),
    };
    let mut line = String::new(alloc);
    push_refusal_line(&mut line, input, files, &refusal, faults, lines)?;
    Ok(line)
}

/// The line with the number of faults of a file that aren't printed.
pub fn more_line(alloc: Global, path: &str, count: usize) -> Result<String, AllocError> {
    let mut line = String::new(alloc);
    push_text(&mut line, path)?;
    let plural = if count == 1 { "" } else { "s" };
    write!(line, ": {count} more fault{plural}")?;
    Ok(line)
}

/// The JSON object with the number of faults of a file that aren't printed.
pub fn more_json(alloc: Global, path: &str, count: usize) -> Result<String, AllocError> {
    let mut object = Object::new(alloc);
    object.set_text("file", path);
    object.set("more", Value::from(count));
    object.set("ok", Value::from(false));
    let mut line = String::new(alloc);
    push_value(alloc, &mut line, &object.finish()?)?;
    Ok(line)
}

/// Adds a text and a name after it, or nothing if there is no name.
fn push_named(out: &mut String, text: &str, name: Option<&[u8]>) -> Result<(), AllocError> {
    let Some(name) = name else {
        return Ok(());
    };
    out.push_str(text)?;
    push_name(out, name)
}

/// Adds the place where reading stopped and the reason, such as `byte 42 (line 3): a CID was expected`.
fn push_stop(out: &mut String, located: LocatedStop) -> Result<(), AllocError> {
    let Stop { offset, reason } = located.stop;
    match located.line {
        Some(line) => write!(out, "byte {offset} (line {line}): {reason}"),
        None => write!(out, "byte {offset}: {reason}"),
    }
}

/// Adds what the part at fault is read as, if it is read.
fn push_read_as(out: &mut String, read_as: Option<ReadAs>) -> Result<(), AllocError> {
    match read_as {
        Some(read_as) => write!(out, "; read as {read_as}"),
        None => Ok(()),
    }
}

/// Adds the object of a refused file, without a line end. `lines` is as in `push_refusal`.
pub fn push_refusal_json<'n, N: NamedFile>(
    alloc: Global,
    out: &mut String,
    input: Input<'_>,
    files: &NamedFiles<'_, N, Bundle<'_>>,
    refusal: &Refusal<'n>,
    faults: Faults,
    lines: &mut LineCounter<'n>,
) -> Result<(), AllocError> {
    let located = stop_of(input.bytes, files, refusal, faults, lines);
    let object = refusal_object(alloc, input.path, located, refusal)?;
    push_value(alloc, out, &object)
}

fn refusal_object(
    alloc: Global,
    path: &str,
    located: Option<LocatedStop>,
    refusal: &Refusal<'_>,
) -> Result<Value, AllocError> {
    let (byte, line, read_as) = match located {
        Some(located) => (Some(located.stop.offset), located.line, located.read_as),
        None => (None, None, None),
    };
    let mut object = Object::new(alloc);
    object.set_text("file", path);
    object.set("ok", Value::from(false));
    object.set_list("in", escaped_names(alloc, &refusal.names));
    object.set("byte", Value::from(byte));
    object.set("line", Value::from(line));
    object.set_string("reason", reason_of(alloc, refusal));
    set_read_as(alloc, &mut object, read_as);
    object.finish()
}

/// Sets what the part at fault is read as, or null.
fn set_read_as(alloc: Global, object: &mut Object, read_as: Option<ReadAs>) {
    match read_as {
        Some(read_as) => object.set_string("read_as", read_as.to_string(alloc)),
        None => object.set("read_as", Value::Null),
    }
}

/// The words for what is wrong, either where reading stopped or with the file as a whole.
fn reason_of(alloc: Global, refusal: &Refusal<'_>) -> Result<String, AllocError> {
    match refusal.cause {
        Cause::Malformed(stop) => format!(in alloc; "{}", stop.reason),
        cause => format!(in alloc; "{cause}"),
    }
}
