//! The name and the writing mode that a file states.

use crate::finding::{Finding, Place};
use crate::warning::Warning;
use cmap_layers::layers::Layers;
use cmap_values::writing_mode::WritingMode;

/// The suffix of the names of files for vertical writing.
const VERTICAL_SUFFIX: &[u8] = b"-V";

/// The name that the file states, if the name of the file on the disk is different.
pub(crate) fn name_differs<'m>(map: &'m Layers, file_name: Option<&[u8]>) -> Finding<'m> {
    let mut finding = Finding::new(Warning::NameDiffers);
    let name = map.metadata().name.as_deref();
    if let (Some(name), Some(file_name)) = (name, file_name) {
        if name != file_name {
            finding.add(1, Place::Name(name));
        }
    }
    finding
}

/// The name that the file states, if the name is for vertical writing and the map isn't.
pub(crate) fn mode_differs<'m>(map: &'m Layers) -> Finding<'m> {
    let mut finding = Finding::new(Warning::ModeDiffers);
    if let Some(name) = map.metadata().name.as_deref() {
        if name.ends_with(VERTICAL_SUFFIX) && mode_of(map) != Some(WritingMode::Vertical) {
            finding.add(1, Place::Name(name));
        }
    }
    finding
}

/// The writing mode of the first layer that has one.
fn mode_of(map: &Layers) -> Option<WritingMode> {
    for layer in map.as_slice() {
        if let Some(mode) = layer.metadata().writing_mode {
            return Some(mode);
        }
    }
    None
}
