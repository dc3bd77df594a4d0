//! The spelling of character collections.

use crate::shown_name::name_bytes;
use cmap_values::character_collection::{CharacterCollection, CidFamily};
use std::alloc::{AllocError, Global};

/// The collection with this spelling, such as Adobe-Japan1-6; `None` if the spelling is wrong.
pub(crate) fn spelled_collection(
    alloc: Global,
    spelled: &str,
) -> Result<Option<CharacterCollection>, AllocError> {
    let Some((registry, ordering, supplement)) = parts_of(spelled) else {
        return Ok(None);
    };
    let (registry, ordering) = (name_bytes(alloc, registry)?, name_bytes(alloc, ordering)?);
    let (Some(registry), Some(ordering)) = (registry, ordering) else {
        return Ok(None);
    };
    let family = CidFamily::from_registry_ordering(alloc, &registry, &ordering)?;
    Ok(Some(CharacterCollection { family, supplement }))
}

/// The registry, the ordering and the supplement. An ordering may have hyphens.
fn parts_of(spelled: &str) -> Option<(&str, &str, i32)> {
    let (front, supplement) = spelled.rsplit_once('-')?;
    let (registry, ordering) = front.split_once('-')?;
    Some((registry, ordering, supplement.parse::<i32>().ok()?))
}
