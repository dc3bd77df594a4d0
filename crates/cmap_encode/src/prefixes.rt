//! The longest prefix of a text that falls into pieces.

ghost use Rattle.std.specs.Prelude.{◌≡◌, ◌↔◌, ◌≤◌, IfOk, IsTrue, List, [], flat_map, if◌then◌else◌, length};
ghost use Rattle.std.specs.Char.{encode_utf8};
ghost use Rattle.cmap_encode.specs.ChoicesSeen.{choices_of};
ghost use Rattle.cmap_encode.specs.Encodings.{IsLongestEncodable, IsStuckBy};
ghost use Rattle.cmap_encode.specs.Pieces.{IsEncodable};
ghost use Rattle.cmap_encode.specs.Prefixes.{EndsFrom, EndsPiece, WentOn};

use crate::choices::Choices;
use crate::tree::EMPTY;
use std::alloc::{AllocError, Global};

/// The offset in bytes of UTF-8 where the longest prefix of a text that falls into pieces ends.
pub(crate) fn stuck_at(alloc: Global, choices: &Choices, text: &[char]) -> Result<usize, AllocError>
    ensures { IfOk result (λ offset. (IsEncodable (choices_of choices.now) text.now → ⊥)
        → IsStuckBy (choices_of choices.now) text.now offset) }
{
    let count = longest_prefix(alloc, choices, text)?;
    utf8_len(alloc, &text[..count])
}

/// The number of bytes of characters in UTF-8.
pub(crate) fn utf8_len(alloc: Global, text: &[char]) -> Result<usize, AllocError>
    ensures { IfOk result (λ len. len ≡ length (flat_map encode_utf8 text.now)) }
{
    let mut written = String::new(alloc);
    for character in text {
        written.push(*character)?;
    }
    Ok(written.len())
}

/// The number of characters in the longest prefix of a text that falls into pieces.
///
/// Once no piece may begin and no piece goes on, no longer prefix falls into pieces.
pub(crate) fn longest_prefix(
    alloc: Global,
    choices: &Choices,
    text: &[char],
) -> Result<usize, AllocError>
    ensures { IfOk result (IsLongestEncodable (choices_of choices.now) text.now) }
{
    let mut nodes = Vec::new(alloc);
    let mut may_begin = true;
    let mut longest = 0;
    for count in 0..text.len() {
        if !may_begin && nodes.is_empty() {
            return Ok(longest);
        }
        let ends = ends_piece(choices, may_begin, &nodes, text[count]);
        nodes = go_on(alloc, choices, may_begin, &nodes, text[count])?;
        may_begin = ends;
        longest = longer(ends, count + 1, longest);
    }
    Ok(longest)
}

/// The length of the longest prefix so far: `count` if that prefix falls into pieces, else `longest`.
fn longer(falls: bool, count: usize, longest: usize) -> usize
    ensures { result ≡ (if falls then count else longest) }
{
    if falls { count } else { longest }
}

/// Whether a character ends a piece: a piece that begins with the character, if a piece may begin, or a piece that
/// goes on from a node.
fn ends_piece(choices: &Choices, may_begin: bool, nodes: &[usize], last: char) -> bool
    ensures { IsTrue result ↔ EndsPiece choices.now may_begin nodes.now last }
{
    (may_begin && choices.one(last).is_some()) || ends_from(choices, nodes, last)
}

/// Whether a character ends a piece that goes on from a node.
fn ends_from(choices: &Choices, nodes: &[usize], last: char) -> bool
    ensures { IsTrue result ↔ EndsFrom choices.now nodes.now last }
{
    for node in nodes {
        if choices.longer(Some(*node), last).is_some() {
            return true;
        }
    }
    false
}

/// The nodes after one more character, and the node of the character itself if a piece may begin with it.
fn go_on(
    alloc: Global,
    choices: &Choices,
    may_begin: bool,
    nodes: &[usize],
    character: char,
) -> Result<Vec<usize>, AllocError>
    ensures { IfOk result
        (λ after. WentOn choices.now character may_begin nodes.now after.items) }
{
    let mut after = begun(alloc, choices, may_begin, character)?;
    for node in nodes {
        if let Some(next) = choices.after(Some(*node), character) {
            after.push(next)?;
        }
    }
    Ok(after)
}

/// The node of a character, if a piece may begin with it.
fn begun(
    alloc: Global,
    choices: &Choices,
    may_begin: bool,
    character: char,
) -> Result<Vec<usize>, AllocError>
    ensures { IfOk result (λ after. WentOn choices.now character may_begin [] after.items) }
{
    let mut after = Vec::new(alloc);
    if !may_begin {
        return Ok(after);
    }
    if let Some(next) = choices.after(Some(EMPTY), character) {
        after.push(next)?;
    }
    Ok(after)
}
