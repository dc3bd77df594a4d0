//! Strings in hexadecimal digits, and texts.

use cmap_io::failure::{Failure, fault};
use cmap_io::inputs::{STANDARD_INPUT, needed};
use cmap_io::path_text::is_plain;
use std::str;

/// The argument of `--codes` that stands for the strings of the standard input.
pub(crate) const LISTED_STANDARD_INPUT: &str = "@-";

/// The message about a text that isn't UTF-8.
pub(crate) const NOT_UTF8: &str = "not UTF-8";

/// The strings of the arguments; `-` stands for the strings on the standard input.
pub(crate) fn strings_of(rt: &HostRuntime, arguments: &[&str]) -> Result<Vec<Vec<u8>>, Failure> {
    let mut strings = Vec::new(rt.alloc());
    for argument in arguments {
        if *argument == STANDARD_INPUT {
            add_list(rt, argument, &mut strings)?;
        } else {
            strings.push(spelled(rt, argument)?)?;
        }
    }
    Ok(strings)
}

/// The strings of `--codes`; `@LIST` stands for the strings in a file.
pub(crate) fn listed_strings(
    rt: &HostRuntime,
    arguments: &[&str],
) -> Result<Vec<Vec<u8>>, Failure> {
    let mut strings = Vec::new(rt.alloc());
    for argument in arguments {
        match argument.strip_prefix('@') {
            Some(path) => add_list(rt, path, &mut strings)?,
            None => strings.push(spelled(rt, argument)?)?,
        }
    }
    Ok(strings)
}

/// The texts of the arguments; `-` stands for the lines of the standard input.
pub(crate) fn texts_of(rt: &HostRuntime, arguments: &[&str]) -> Result<Vec<String>, Failure> {
    let mut texts = Vec::new(rt.alloc());
    for argument in arguments {
        if *argument == STANDARD_INPUT {
            add_lines(rt, argument, &mut texts)?;
        } else if !is_plain(argument) {
            return Err(fault(rt, argument, NOT_UTF8));
        } else {
            texts.push(String::from_str(rt.alloc(), argument)?)?;
        }
    }
    Ok(texts)
}

/// Adds the lines of a file.
fn add_lines(rt: &HostRuntime, path: &str, texts: &mut Vec<String>) -> Result<(), Failure> {
    let bytes = needed(rt, path)?;
    let Ok(text) = str::from_utf8(&bytes) else {
        return Err(fault(rt, path, NOT_UTF8));
    };
    for line in text.lines() {
        texts.push(String::from_str(rt.alloc(), line)?)?;
    }
    Ok(())
}

/// Adds the strings of a file, which are separated by white space.
fn add_list(rt: &HostRuntime, path: &str, strings: &mut Vec<Vec<u8>>) -> Result<(), Failure> {
    let bytes = needed(rt, path)?;
    let Ok(text) = str::from_utf8(&bytes) else {
        return Err(fault(rt, path, NOT_UTF8));
    };
    for digits in text.split_whitespace() {
        strings.push(spelled(rt, digits)?)?;
    }
    Ok(())
}

/// The bytes that hexadecimal digits spell, two digits for each byte.
pub(crate) fn spelled(rt: &HostRuntime, digits: &str) -> Result<Vec<u8>, Failure> {
    let mut string = vec![in rt.alloc(); 0; digits.len() / 2]?;
    match hex::decode_to_slice(digits.as_bytes(), &mut string) {
        Ok(()) => Ok(string),
        Err(_) => Err(fault(rt, digits, "not hexadecimal digits in pairs")),
    }
}
