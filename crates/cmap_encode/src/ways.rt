//! The first pieces of the ends of a text, found from the end of the text on.

ghost use Rattle.std.specs.Prelude.{◌≡◌, ◌↔◌, ◌+◌, ◌-◌, ◌<◌, ◌≤◌, ℕ, List, IfOk, IfSome, IsTrue, MatchOption, if◌then◌else◌, length, option_map, take};
ghost use Rattle.cmap_encode.specs.Letters.{is_mark};
ghost use Rattle.cmap_encode.specs.ChoicesSeen.{choice_seen, choices_of};
ghost use Rattle.cmap_encode.specs.Encodings.{IsEncodingBy};
ghost use Rattle.cmap_encode.specs.Pieces.{Choices as Codes, IsEncodable, letter_of};
ghost use Rattle.cmap_encode.specs.TreeSeen.{node_of};
ghost use Rattle.cmap_encode.specs.Ways.{AreInside, AreWays, IsInside, IsSettled, IsTryOf, IsWayOf, last_of};

use crate::choices::{Choice, Choices};
use crate::letters::is_mark;
use crate::tree::EMPTY;
use std::alloc::{AllocError, Global};

/// The first piece of a text.
#[derive(Clone, Copy)]
pub(crate) struct Way {
    /// The number of characters of the piece.
    pub(crate) taken: usize,
    /// The choice for the piece.
    pub(crate) choice: Choice,
}

/// The ways of the last characters of a text: of the last one, of the last two, and so on. Last characters that don't
/// fall into pieces have no way.
pub(crate) fn all_ways(
    alloc: Global,
    choices: &Choices,
    text: &[char],
) -> Result<Vec<Option<Way>>, AllocError>
    ensures ways { IfOk result (λ ways. AreWays (choices_of choices.now) text.now ways.items) }
    ensures count { IfOk result (λ ways. length ways.items ≡ length text.now) }
    ensures inside { IfOk result (λ ways. AreInside ways.items) }
{
    let mut ways = Vec::with_capacity(alloc, text.len())?;
    let mut marks = 0;
    for left in 1..text.len() + 1 {
        let rest = &text[text.len() - left..];
        ways.push(best_way(choices, &ways, rest, 1 + marks))?;
        marks = marks_with(rest[0], marks);
    }
    Ok(ways)
}

/// The number of marks at the start of a text, by its first character and the number of marks `after` it.
fn marks_with(character: char, after: usize) -> usize
    requires { after < usize.MAX }
    ensures { result ≡ (if is_mark character then 1 + after else 0) }
{
    if is_mark(character) { 1 + after } else { 0 }
}

/// The way of a text, by the ways of its last characters. The first letter of the text has `letter` characters.
fn best_way(choices: &Choices, ways: &[Option<Way>], text: &[char], letter: usize) -> Option<Way>
    requires count { length ways.now + 1 ≡ length text.now }
    requires letter { letter ≡ letter_of text.now }
    ensures way { AreWays (choices_of choices.now) text.now ways.now
        → IsWayOf (choices_of choices.now) text.now result }
    ensures inside { IfSome result (λ way. IsInside way (length text.now)) }
{
    let mut best = None;
    let mut node = Some(EMPTY);
    for taken in 1..text.len() + 1 {
        if node.is_none() || is_settled(best, taken, letter) {
            return best;
        }
        best = way_by(choices, node, ways, text, taken).or(best);
        node = choices.after(node, text[taken - 1]);
    }
    best
}

/// Whether no piece of `taken` characters or more takes precedence over this piece.
fn is_settled(best: Option<Way>, taken: usize, letter: usize) -> bool
    ensures { IsTrue result ↔ IsSettled best taken letter }
{
    match best {
        Some(best) => best.taken <= letter && letter < taken,
        None => false,
    }
}

/// The way whose piece has `taken` characters, if the text falls into pieces in this way. `node` is the node of the
/// characters before the last character of the piece.
fn way_by(
    choices: &Choices,
    node: Option<usize>,
    ways: &[Option<Way>],
    text: &[char],
    taken: usize,
) -> Option<Way>
    requires node { node ≡ node_of choices.now.index.tree (take (taken - 1) text.now) }
    requires some { 1 ≤ taken }
    requires within { taken ≤ length text.now }
    requires ways { length ways.now + 1 ≡ length text.now }
    ensures way { AreWays (choices_of choices.now) text.now ways.now
        → IsTryOf (choices_of choices.now) text.now taken result }
    ensures taken { IfSome result (λ way. way.taken ≡ taken) }
{
    if !has_way(ways, text.len() - taken) {
        return None;
    }
    let choice = choice_of(choices, node, text, taken)?;
    Some(Way { taken, choice })
}

/// The choice for the first `taken` characters of a text. `node` is the node of the characters before the last of
/// them.
fn choice_of(choices: &Choices, node: Option<usize>, text: &[char], taken: usize) -> Option<Choice>
    requires node { node ≡ node_of choices.now.index.tree (take (taken - 1) text.now) }
    requires some { 1 ≤ taken }
    requires within { taken ≤ length text.now }
    ensures { option_map choice_seen result ≡ choices_of choices.now (take taken text.now) }
{
    let last = text[taken - 1];
    if taken == 1 {
        choices.one(last)
    } else {
        choices.longer(node, last)
    }
}

/// Whether the last `left` characters fall into pieces.
fn has_way(ways: &[Option<Way>], left: usize) -> bool
    requires { left ≤ length ways.now }
    ensures { (choices : Codes) (text : List ℕ) → AreWays choices text ways.now
        → IsTrue result ↔ IsEncodable choices (last_of left text) }
{
    match left.checked_sub(1) {
        Some(last) => ways[last].is_some(),
        None => true,
    }
}

/// The encoding to which the ways lead; `None` if the text doesn't fall into pieces.
pub(crate) fn string_of(alloc: Global, ways: &[Option<Way>]) -> Result<Option<Vec<u8>>, AllocError>
    requires { AreInside ways.now }
    ensures { IfOk result (λ found. (codes : Codes) (text : List ℕ) → AreWays codes text ways.now
        → length ways.now ≡ length text
        → MatchOption found (IsEncodable codes text → ⊥) (λ string. IsEncodingBy codes text string.items)) }
{
    let mut string = Vec::new(alloc);
    let mut left = ways.len();
    while left > 0 {
        let Some(way) = ways[left - 1] else {
            return Ok(None);
        };
        way.choice.push_to(&mut string)?;
        left -= way.taken;
    }
    Ok(Some(string))
}
