//! The codes for which no file has all answers of a map of layers.

ghost use Rattle.std.specs.Prelude.{◌≡◌, ◌≢◌, ℕ, ◌+◌, ◌-◌, ◌<◌, ◌≤◌, ◌^◌, IfOk, IsSome, MatchOption};
ghost use Rattle.cmap_runs.specs.Ranges.{last_of};
ghost use Rattle.cmap_values.specs.CodeLengths.{length_of};
ghost use Rattle.cmap_layers.specs.CodeStretches.{cid_after};
ghost use Rattle.cmap_layers.specs.Lookups.{cid_of};
ghost use Rattle.cmap_edit.specs.Chosen.{codes_span};
ghost use Rattle.cmap_edit.specs.Parts.{AreAllKept, AreKept, HasCidsOfOne, HaveSameCids, IsFound};

use crate::flatten::codes::{Codes, codes_of_length};
use crate::flatten::lists::lists_of;
use crate::flatten::texts::declare_texts;
use cmap_layers::layer::Layer;
use cmap_layers::layers::Layers;
use cmap_layers::stretches::Cids;
use cmap_runs::runs::{Looks, Table};
use cmap_values::code_length::CodeLength;
use cmap_values::metadata::Metadata;
use cmap_values::names::Cid;
use cmap_values::range::Range;
use std::alloc::{AllocError, Global};

/// A code whose CID no tidy file can give together with its text and its declared CID. In the layers a text
/// of one character stands above a declaration of a CID, a text of several characters above a text of one
/// character, or a declared CID passes 32 bits.
#[derive(Clone, Copy, Debug, PartialEq, Eq)]
pub struct Contradiction {
    /// The number of bytes of the code.
    pub len: CodeLength,
    /// The number of the code.
    pub code: u32,
}

/// A contradiction among the chosen codes, if there is one. Without texts there is none.
pub(crate) fn find_contradiction(
    alloc: Global,
    layers: &Layers,
    codes: &[Codes],
) -> Result<Option<Contradiction>, AllocError>
    ensures { IfOk result (λ found. MatchOption found (AreAllKept layers.now codes.now)
        (IsFound layers.now codes.now)) }
{
    if !declare_texts(layers) {
        return Ok(None);
    }
    let flat = flat_layers(alloc, layers, codes)?;
    contradiction_with(alloc, layers, &flat, codes)
}

/// A map of one layer that has the declarations of all layers for the chosen codes.
fn flat_layers(alloc: Global, layers: &Layers, codes: &[Codes]) -> Result<Layers, AllocError>
    ensures { IfOk result (HasCidsOfOne layers.now codes.now) }
{
    let metadata = Metadata {
        character_collection: None,
        name: None,
        writing_mode: None,
    };
    let lists = lists_of(alloc, layers, codes)?;
    let mut list = Vec::new(alloc);
    list.push(Layer::build(alloc, metadata, lists)?)?;
    Ok(Layers::of(list))
}

/// A chosen code for which the two maps have different CIDs, if there is one.
fn contradiction_with(
    alloc: Global,
    layers: &Layers,
    flat: &Layers,
    codes: &[Codes],
) -> Result<Option<Contradiction>, AllocError>
    requires { HasCidsOfOne layers.now codes.now flat.now }
    ensures { IfOk result (λ found. MatchOption found (AreAllKept layers.now codes.now)
        (IsFound layers.now codes.now)) }
{
    let lens = [
        CodeLength::One,
        CodeLength::Two,
        CodeLength::Three,
        CodeLength::Four,
    ];
    for len in &lens {
        let found = contradiction_of_length(alloc, layers, flat, codes, *len)?;
        if found.is_some() {
            return Ok(found);
        }
    }
    Ok(None)
}

/// A chosen code of this length for which the two maps have different CIDs, if there is one.
fn contradiction_of_length(
    alloc: Global,
    layers: &Layers,
    flat: &Layers,
    codes: &[Codes],
    len: CodeLength,
) -> Result<Option<Contradiction>, AllocError>
    requires { HasCidsOfOne layers.now codes.now flat.now }
    ensures { IfOk result (λ found. MatchOption found (AreKept layers.now codes.now len)
        (IsFound layers.now codes.now)) }
{
    let chosen = codes_of_length(alloc, codes, len)?;
    match difference(layers, flat, &chosen, len) {
        Some(code) => Ok(Some(Contradiction { len, code })),
        None => Ok(None),
    }
}

/// The first code of a table for which two maps have different CIDs.
fn difference(one: &Layers, other: &Layers, chosen: &Table<Codes>, len: CodeLength) -> Option<u32>
    ensures { MatchOption result
        ((code : ℕ) → code < 2 ^ 32 → IsSome (last_of codes_span chosen.now code)
        → cid_of one.now code (length_of len) ≡ cid_of other.now code (length_of len))
        (λ code. (code < 2 ^ 32) × IsSome (last_of codes_span chosen.now code)
        × (cid_of one.now code (length_of len) ≢ cid_of other.now code (length_of len))) }
{
    let mut looks = Looks::new();
    let mut stretches = chosen.stretches(0, &mut looks);
    let mut next: u64 = 0;
    while let Some(stretch) = stretches.next(&mut looks) {
        if stretch.declaration.is_some() {
            let range = Range {
                start: next as u32,
                end: stretch.last,
            };
            let found = difference_in(one, other, range, len);
            if found.is_some() {
                return found;
            }
        }
        next = u64::from(stretch.last) + 1;
    }
    None
}

/// The first code of a range for which two maps have different CIDs.
fn difference_in(one: &Layers, other: &Layers, range: Range, len: CodeLength) -> Option<u32>
    requires { range.start ≤ range.end }
    ensures { MatchOption result
        (HaveSameCids one.now other.now (length_of len) range.start (range.end + 1))
        (λ code. (range.start ≤ code) × (code ≤ range.end)
        × (cid_of one.now code (length_of len) ≢ cid_of other.now code (length_of len))) }
{
    let end = u64::from(range.end);
    let mut next = u64::from(range.start);
    while next <= end {
        let start = next as u32;
        let mine = one.cid_stretch(start, len);
        let theirs = other.cid_stretch(start, len);
        let last = mine.last.min(theirs.last).min(range.end);
        let found = first_difference(mine.cids, theirs.cids, start, last);
        if found.is_some() {
            return found;
        }
        next = u64::from(last) + 1;
    }
    None
}

/// The first of the codes from `first` to `last` for which these CIDs differ.
fn first_difference(one: Cids, other: Cids, first: u32, last: u32) -> Option<u32>
    requires { first ≤ last }
    ensures { MatchOption result
        ((code : ℕ) → first ≤ code → code ≤ last
        → cid_after one (code - first) ≡ cid_after other (code - first))
        (λ code. (first ≤ code) × (code ≤ last)
        × (cid_after one (code - first) ≢ cid_after other (code - first))) }
{
    match (one, other) {
        (Cids::Absent, Cids::Absent) => None,
        (Cids::Same(a), Cids::Same(b)) => (a != b).then_some(first),
        (Cids::CountOn(a), Cids::CountOn(b)) => (a != b).then_some(first),
        (Cids::Same(a), Cids::CountOn(b)) => first_apart(a, b, first, last),
        (Cids::CountOn(a), Cids::Same(b)) => first_apart(b, a, first, last),
        _ => Some(first),
    }
}

/// The first of the codes from `first` to `last` whose CID isn't `same`, where the CIDs count on from
/// `begin`.
fn first_apart(same: Cid, begin: Cid, first: u32, last: u32) -> Option<u32>
    requires { first ≤ last }
    ensures { MatchOption result
        ((code : ℕ) → first ≤ code → code ≤ last → begin + (code - first) ≡ same)
        (λ code. (first ≤ code) × (code ≤ last) × (begin + (code - first) ≢ same)) }
{
    if same != begin {
        Some(first)
    } else if first < last {
        Some(first + 1)
    } else {
        None
    }
}
