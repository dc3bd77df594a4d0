//! The order of CID declarations. The order has no meaning where no declarations overlap. Single codes before ranges,
//! as in Adobe's own files, take fewer sections. Texts stay in the order of their codes, since MuPDF skips the rest of
//! a section after a code above FFFF.

use cmap_values::declarations::{ByLength, CidRange, Lists};
use std::alloc::AllocError;

/// The most declarations of a list that stays in the order of its codes: the declarations of one section.
const FEW: usize = 100;

/// Puts single codes before ranges in each long list of CIDs and of notdefs whose declarations don't overlap.
pub(crate) fn put_single_codes_first(lists: &mut Lists) -> Result<(), AllocError> {
    order_by_length(&mut lists.cids)?;
    order_by_length(&mut lists.notdefs)
}

fn order_by_length(lists: &mut ByLength<Vec<CidRange>>) -> Result<(), AllocError> {
    order(&mut lists.one)?;
    order(&mut lists.two)?;
    order(&mut lists.three)?;
    order(&mut lists.four)
}

fn order(list: &mut Vec<CidRange>) -> Result<(), AllocError> {
    if list.len() <= FEW || !are_apart(list.as_slice()) {
        return Ok(());
    }
    list.sort_by_key(|entry| entry.range.start < entry.range.end)
}

/// Whether each declaration begins after the one before it has ended.
fn are_apart(list: &[CidRange]) -> bool {
    for index in 1..list.len() {
        if list[index].range.start <= list[index - 1].range.end {
            return false;
        }
    }
    true
}
