//! Codes with two declarations of one list that disagree.

use crate::declared::{CID_LISTS, CidList};
use crate::finding::{Finding, OpenFinding};
use crate::lint::Subject;
use crate::ranges::{join, push_range, ranges_apart, sort};
use crate::warning::Warning;
use cmap_layers::code_lengths::text_code_len;
use cmap_layers::layer::Layer;
use cmap_layers::layers::Layers;
use cmap_runs::runs::{Looks, Range, Table};
use cmap_values::code_length::CodeLength;
use cmap_values::declarations::{BfRange, CidRange};
use std::alloc::{AllocError, Global};

/// A declaration with its group: two declarations of one group agree on each code that both have.
#[derive(Clone, Copy)]
struct Grouped {
    group: i64,
    range: Range,
}

/// A declaration of texts with the facts that agreeing declarations have in common: all units but the last, and
/// the value that the last unit would have at code 0.
#[derive(Clone, Copy)]
struct TextKey<'d> {
    front: &'d [u16],
    at_zero: i64,
    range: Range,
}

/// The codes of the top layer with declarations that disagree.
pub(crate) fn overlaps<'m>(
    alloc: Global,
    subject: &Subject<'m>,
    layer: &Layer,
) -> Result<Finding<'m>, AllocError> {
    let mut finding = OpenFinding::new(alloc, Warning::Overlap, subject.shown);
    for list in CID_LISTS {
        add_list(alloc, &mut finding, layer, *list)?;
    }
    add_texts(alloc, &mut finding, subject.map, layer)?;
    finding.finish(alloc)
}

/// Adds the codes whose texts disagree.
fn add_texts(
    alloc: Global,
    finding: &mut OpenFinding<'_>,
    map: &Layers,
    layer: &Layer,
) -> Result<(), AllocError> {
    let grouped = grouped_texts(alloc, layer.texts())?;
    for range in &disputed(alloc, grouped)? {
        finding.add_codes(text_code_len(map, *range), *range);
    }
    Ok(())
}

/// Adds the codes of a list that have declarations that disagree.
fn add_list(
    alloc: Global,
    finding: &mut OpenFinding<'_>,
    layer: &Layer,
    list: CidList,
) -> Result<(), AllocError> {
    for len in CodeLength::ALL {
        add_of_length(alloc, finding, layer, list, *len)?;
    }
    Ok(())
}

/// Adds the codes of one length of a list.
fn add_of_length(
    alloc: Global,
    finding: &mut OpenFinding<'_>,
    layer: &Layer,
    list: CidList,
    len: CodeLength,
) -> Result<(), AllocError> {
    let grouped = grouped_cids(alloc, list, list.table(layer, len))?;
    for range in &disputed(alloc, grouped)? {
        finding.add_codes(len.count(), *range);
    }
    Ok(())
}

/// The declarations of a list that have a code, by groups. CID declarations agree where they give the same CID
/// to the same code, and notdef declarations agree where they have the same CID.
fn grouped_cids(
    alloc: Global,
    list: CidList,
    table: &Table<CidRange>,
) -> Result<Vec<Grouped>, AllocError> {
    let mut grouped = Vec::new(alloc);
    let mut looks = Looks::new();
    for index in 0..table.decl_count() {
        let declared = table.decl(index, &mut looks);
        let range = declared.range;
        let group = match list {
            CidList::Cids => i64::from(declared.cid).saturating_sub(i64::from(range.start)),
            CidList::Notdefs => i64::from(declared.cid),
        };
        push_grouped(&mut grouped, Grouped { group, range })?;
    }
    Ok(grouped)
}

/// Adds a declaration, unless it has no code.
fn push_grouped(grouped: &mut Vec<Grouped>, declared: Grouped) -> Result<(), AllocError> {
    if declared.range.start <= declared.range.end {
        grouped.push(declared)?;
    }
    Ok(())
}

/// The declarations of texts that have a code, by groups.
fn grouped_texts(alloc: Global, table: &Table<BfRange>) -> Result<Vec<Grouped>, AllocError> {
    let keys = text_keys(alloc, table)?;
    let mut grouped = Vec::new(alloc);
    push_groups(&mut grouped, &keys)?;
    Ok(grouped)
}

/// Adds the declarations of texts, which are sorted by groups. The number of a group is the index of its first
/// declaration.
fn push_groups(grouped: &mut Vec<Grouped>, keys: &[TextKey<'_>]) -> Result<(), AllocError> {
    let mut group: i64 = 0;
    let mut before: Option<TextKey<'_>> = None;
    for (index, key) in keys.iter().enumerate() {
        if !is_of_group(before, key) {
            group = index as i64;
        }
        let range = key.range;
        push_grouped(grouped, Grouped { group, range })?;
        before = Some(*key);
    }
    Ok(())
}

/// Whether a declaration agrees with the one before it.
fn is_of_group(before: Option<TextKey<'_>>, key: &TextKey<'_>) -> bool {
    match before {
        Some(before) => before.front == key.front && before.at_zero == key.at_zero,
        None => false,
    }
}

/// The declarations of texts, sorted so that agreeing declarations are adjacent.
fn text_keys(alloc: Global, table: &Table<BfRange>) -> Result<Vec<TextKey<'_>>, AllocError> {
    let mut keys = Vec::with_capacity(alloc, table.decl_count())?;
    let mut looks = Looks::new();
    for index in 0..table.decl_count() {
        if let Some(key) = text_key(table.decl(index, &mut looks)) {
            keys.push(key)?;
        }
    }
    keys.sort_by_key(|key| (key.front, key.at_zero))?;
    Ok(keys)
}

fn text_key(declared: &BfRange) -> Option<TextKey<'_>> {
    let (last, front) = declared.units.as_slice().split_last()?;
    let range = declared.range;
    Some(TextKey {
        front,
        at_zero: i64::from(*last).saturating_sub(i64::from(range.start)),
        range,
    })
}

/// The codes that lie in ranges of two groups, as disjoint ranges, in order.
fn disputed(alloc: Global, grouped: Vec<Grouped>) -> Result<Vec<Range>, AllocError> {
    let ranges = ranges_of_groups(alloc, grouped)?;
    let mut disputed = Vec::new(alloc);
    push_disputed(&mut disputed, &ranges)?;
    ranges_apart(alloc, disputed)
}

/// Adds the codes that lie in two of these ranges. The ranges are in the order of their first codes.
fn push_disputed(disputed: &mut Vec<Range>, ranges: &[Range]) -> Result<(), AllocError> {
    let mut covered: Option<u32> = None;
    for range in ranges {
        let Range { start, end } = *range;
        if let Some(last) = covered {
            let end = end.min(last);
            push_range(disputed, Range { start, end })?;
        }
        covered = Some(end.max(covered.unwrap_or(0)));
    }
    Ok(())
}

/// The codes of each group as ranges, in the order of their first codes. Two ranges of one group have no code
/// in common.
fn ranges_of_groups(alloc: Global, mut grouped: Vec<Grouped>) -> Result<Vec<Range>, AllocError> {
    grouped.sort_by_key(|declared| (declared.group, declared.range.start))?;
    let mut ranges = Vec::new(alloc);
    push_ranges(&mut ranges, &grouped)?;
    sort(&mut ranges)?;
    Ok(ranges)
}

/// Adds the ranges of groups. The declarations of a group are adjacent.
fn push_ranges(ranges: &mut Vec<Range>, grouped: &[Grouped]) -> Result<(), AllocError> {
    let mut before: Option<i64> = None;
    for declared in grouped {
        if before == Some(declared.group) {
            join(ranges, declared.range)?;
        } else {
            ranges.push(declared.range)?;
        }
        before = Some(declared.group);
    }
    Ok(())
}
