//! The codes of CIDs, by the texts that the map of a character collection gives the CIDs.

ghost use Rattle.std.specs.Prelude.{◌^◌, ◌<◌, ◌≤◌, IfOk, OnOk};
ghost use Rattle.std.specs.Option.{option_copied};
ghost use Rattle.cmap_encode.specs.GatheredSeen.{AddsCids};
ghost use Rattle.cmap_encode.specs.RunsSeen.{AreRunsByPrefix};

use crate::key_codes::KeyCodes;
use crate::rank::{Rank, Ranked};
use crate::runs_by_prefix::RunsByPrefix;
use cmap_layers::layers::Layers;
use cmap_unicode::texts_in_row;
use std::alloc::{AllocError, Global};

/// Adds the first code of each CID for the text of the CID.
pub(crate) fn add_cids(
    alloc: Global,
    texts: &mut RunsByPrefix,
    collection: Option<&Layers>,
    cids: &KeyCodes,
) -> Result<(), AllocError>
    requires { AreRunsByPrefix texts.old }
    ensures are { OnOk result (AreRunsByPrefix texts.new) }
    ensures adds { OnOk result
        (AddsCids (option_copied collection.entry) cids.now 0 (2 ^ 32) texts.old texts.new) }
{
    let mut next: u64 = 0;
    while next <= u64::from(u32::MAX) {
        next = add_row(alloc, texts, collection, cids, next as u32)?;
    }
    Ok(())
}

/// Adds the first codes of CIDs from `first` on with consecutive codes and texts. The result is the CID to continue
/// with.
fn add_row(
    alloc: Global,
    texts: &mut RunsByPrefix,
    collection: Option<&Layers>,
    cids: &KeyCodes,
    first: u32,
) -> Result<u64, AllocError>
    requires { AreRunsByPrefix texts.old }
    ensures more { IfOk result (λ next. (first < next) × (next ≤ 2 ^ 32)) }
    ensures are { OnOk result (AreRunsByPrefix texts.new) }
    ensures adds { IfOk result
        (λ next. AddsCids (option_copied collection.entry) cids.now first next texts.old texts.new) }
{
    let stretch = cids.stretch(first);
    let Some(own) = stretch.first else {
        return Ok(u64::from(stretch.last) + 1);
    };
    let row = texts_in_row(alloc, collection, first)?;
    let last = row.last.min(stretch.last);
    let Some(text) = &row.text else {
        return Ok(u64::from(last) + 1);
    };
    let begin = Ranked {
        code: own.code,
        rank: Rank::Collection,
    };
    let further = texts.add_texts(alloc, text, begin, last - first)?;
    Ok(u64::from(first) + u64::from(further) + 1)
}
