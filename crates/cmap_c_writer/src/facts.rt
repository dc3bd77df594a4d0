//! The metadata for a file, as C hands it in.

ghost use Rattle.std.specs.Prelude.{◌≡◌, IfOk, option_map};
ghost use Rattle.cmap_values.specs.Metadata.{mode_numbered};
ghost use Rattle.cmap_values.specs.MetadataSeen.{collection_seen, metadata_seen, mode_seen};
ghost use Rattle.cmap_c_writer.specs.Given.{collection_given, metadata_given, name_given};

use cmap_values::character_collection::{CharacterCollection, CidFamily};
use cmap_values::metadata::Metadata;
use cmap_values::writing_mode::WritingMode;
use std::alloc::{AllocError, Global};

/// The metadata of a file. The struct has no padding.
#[repr(C)]
#[derive(Clone, Copy)]
pub struct Facts<'a> {
    /// The name of the file.
    pub(crate) name: &'a [u8],
    /// The registry of the character collection.
    pub(crate) registry: &'a [u8],
    /// The ordering of the character collection.
    pub(crate) ordering: &'a [u8],
    /// The supplement of the character collection.
    pub(crate) supplement: i32,
    /// 0 where the file states no name.
    pub(crate) has_name: u8,
    /// 0 where the file states no character collection.
    pub(crate) has_collection: u8,
    /// The writing mode: 0 or 1; any other number states none.
    pub(crate) writing_mode: u16,
}

impl Facts<'_> {
    /// The metadata of the file. An error means that memory ran out.
    pub(crate) fn metadata(&self, alloc: Global) -> Result<Metadata, AllocError>
        ensures { IfOk result (λ metadata. metadata_seen metadata ≡ metadata_given self.now) }
    {
        let name = self.given_name(alloc)?;
        Ok(Metadata {
            character_collection: self.given_collection(alloc)?,
            name,
            writing_mode: self.given_mode(),
        })
    }

    /// The name of the file, if it states one.
    fn given_name(&self, alloc: Global) -> Result<Option<Vec<u8>>, AllocError>
        ensures { IfOk result
            (λ name. option_map (λ name. name.items) name ≡ name_given self.now) }
    {
        if self.has_name == 0 {
            return Ok(None);
        }
        Ok(Some(Vec::from_slice(alloc, self.name)?))
    }

    /// The character collection of the file, if it states one.
    fn given_collection(&self, alloc: Global) -> Result<Option<CharacterCollection>, AllocError>
        ensures { IfOk result
            (λ collection. option_map collection_seen collection ≡ collection_given self.now) }
    {
        if self.has_collection == 0 {
            return Ok(None);
        }
        let family = CidFamily::from_registry_ordering(alloc, self.registry, self.ordering)?;
        Ok(Some(CharacterCollection {
            family,
            supplement: self.supplement,
        }))
    }

    /// The writing mode of the file, if it states one.
    fn given_mode(&self) -> Option<WritingMode>
        ensures { option_map mode_seen result ≡ mode_numbered self.now.writing_mode }
    {
        WritingMode::numbered(u8::try_from(self.writing_mode).ok()?)
    }
}
