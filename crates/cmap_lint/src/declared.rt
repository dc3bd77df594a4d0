//! The declarations of a layer, list by list.

use cmap_layers::layer::Layer;
use cmap_runs::runs::Table;
use cmap_values::code_length::CodeLength;
use cmap_values::declarations::CidRange;

/// The lists of a layer whose declarations give CIDs.
#[derive(Clone, Copy)]
pub(crate) enum CidList {
    Cids,
    Notdefs,
}

/// Both lists.
pub(crate) const CID_LISTS: &[CidList] = &[CidList::Cids, CidList::Notdefs];

impl CidList {
    /// The declarations of this list for codes of a length.
    pub(crate) fn table(self, layer: &Layer, len: CodeLength) -> &Table<CidRange> {
        match self {
            CidList::Cids => layer.cids(len),
            CidList::Notdefs => layer.notdefs(len),
        }
    }
}
