//! The codes at which two maps differ in their texts.

ghost use Rattle.std.specs.Prelude.{◌≡◌, ◌↔◌, ◌+◌, ◌<◌, ◌≤◌, IfOk, IsTrue, List, OnOk};
ghost use Rattle.cmap_values.specs.DeclarationsSeen.{bf_entry_seen};
ghost use Rattle.cmap_layers.specs.Layers.{Layer};
ghost use Rattle.cmap_edit.specs.Differences.{AreTextDifferences, AreTextDifferencesBelow, CouldBeOneOfTexts, IsTextDifference, declared};

use crate::diff::parts::CODE_COUNT;
use crate::diff::text_parts::text_part;
use cmap_layers::layers::Layers;
use cmap_values::declarations::BfRange;
use cmap_values::range::Range;
use std::alloc::{AllocError, Global};

/// Consecutive codes, at each of which two maps give different texts, or only one map gives a text.
#[derive(Clone, Copy, Debug)]
pub struct TextDifference<'l> {
    /// The codes.
    pub range: Range,
    /// The declaration that decides their texts in the first map, if one does.
    pub left: Option<&'l BfRange>,
    /// The declaration that decides their texts in the second map, if one does.
    pub right: Option<&'l BfRange>,
}

/// All codes at which the texts of two maps differ, in order. Each stretch is as long as the same
/// declarations decide. A code is its number here: its text doesn't depend on how many bytes it
/// has.
///
/// It fails only if memory runs out.
pub fn text_differences<'l>(
    alloc: Global,
    left: &'l Layers,
    right: &'l Layers,
) -> Result<Vec<TextDifference<'l>>, AllocError>
    ensures { IfOk result
        (λ differences. AreTextDifferences left.now right.now differences.items) }
{
    let mut differences = Vec::new(alloc);
    let mut next = 0;
    while next < CODE_COUNT {
        let first = next as u32;
        let part = text_part(alloc, left, right, first)?;
        if part.differs {
            let (start, end) = (first, part.last);
            let difference = TextDifference {
                range: Range { start, end },
                left: part.left,
                right: part.right,
            };
            add(&mut differences, difference)?;
        }
        next = u64::from(part.last) + 1;
    }
    Ok(differences)
}

/// Adds a difference at the end, joined with the last one if the two could be one.
fn add<'l>(
    differences: &mut Vec<TextDifference<'l>>,
    next: TextDifference<'l>,
) -> Result<(), AllocError>
    requires { next.range.start ≤ next.range.end }
    ensures { OnOk result ((left right : List Layer)
        → AreTextDifferencesBelow left right next.entry.range.start differences.old.items
        → IsTextDifference left right next.entry
        → AreTextDifferencesBelow left right (next.entry.range.end + 1) differences.new.items) }
{
    let Some(last) = differences.pop() else {
        differences.push(next)?;
        return Ok(());
    };
    if are_one(last, next) {
        let (start, end) = (last.range.start, next.range.end);
        differences.push(TextDifference {
            range: Range { start, end },
            left: last.left,
            right: last.right,
        })?;
        return Ok(());
    }
    differences.push(last)?;
    differences.push(next)?;
    Ok(())
}

/// Whether two differences could be one.
fn are_one(last: TextDifference<'_>, next: TextDifference<'_>) -> bool
    ensures { IsTrue result ↔ CouldBeOneOfTexts last.entry next.entry }
{
    next.range.start > 0
        && next.range.start - 1 == last.range.end
        && is_same(last.left, next.left)
        && is_same(last.right, next.right)
}

/// Whether two declarations are the same, or both are absent.
fn is_same(left: Option<&BfRange>, right: Option<&BfRange>) -> bool
    ensures { IsTrue result ↔ (declared left.entry ≡ declared right.entry) }
{
    match (left, right) {
        (Some(left), Some(right)) => is_same_range(left, right),
        (None, None) => true,
        _ => false,
    }
}

/// Whether two declarations have the same codes and the same units.
fn is_same_range(left: &BfRange, right: &BfRange) -> bool
    ensures { IsTrue result ↔ (bf_entry_seen left.now ≡ bf_entry_seen right.now) }
{
    left.range.start == right.range.start
        && left.range.end == right.range.end
        && left.units.as_slice() == right.units.as_slice()
}
