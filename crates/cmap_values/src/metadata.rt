//! What a CMap states about itself.

ghost use Rattle.std.specs.Prelude.{◌≡◌, IfOk, OnErr};
ghost use Rattle.cmap_values.specs.MetadataSeen.{metadata_seen, HoldsTexts};

use crate::character_collection::CharacterCollection;
use crate::writing_mode::WritingMode;
use std::alloc::{AllocError, Global};

/// What a CMap states about itself. A part that the CMap doesn't state is `None`.
#[derive(Debug, Drop)]
pub struct Metadata {
    /// The character collection that the CIDs of the CMap belong to.
    pub character_collection: Option<CharacterCollection>,
    /// The name of the CMap.
    pub name: Option<Vec<u8>>,
    /// The direction of the text for which the CMap is made.
    pub writing_mode: Option<WritingMode>,
}

impl Metadata {
    /// A copy of the metadata.
    ///
    /// It fails only if memory runs out; only a name and a `Custom` family allocate memory.
    pub fn clone(&self, alloc: Global) -> Result<Metadata, AllocError>
        ensures same { IfOk result (λ copy. metadata_seen copy ≡ metadata_seen self.now) }
        ensures err { OnErr result (HoldsTexts (metadata_seen self.now)) }
    {
        let character_collection = match &self.character_collection {
            Some(collection) => Some(collection.clone(alloc)?),
            None => None,
        };
        let name = match &self.name {
            Some(name) => Some(Vec::from_slice(alloc, name)?),
            None => None,
        };
        Ok(Metadata {
            character_collection,
            name,
            writing_mode: self.writing_mode,
        })
    }
}
