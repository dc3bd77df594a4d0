//! Character collections: the registry and the ordering that CIDs belong to, and the CMaps from and to Unicode.

ghost use Rattle.std.specs.Prelude.{◌≡◌, IfOk, IfSome, MatchOption, OnErr, codes, option_map};
ghost use Rattle.cmap_values.specs.CMapNames.{IsNameOf, name_bytes};
ghost use Rattle.cmap_values.specs.MetadataSeen.{family_seen, collection_seen};
ghost use Rattle.cmap_values.specs.Names.{IsCustom, custom, family_of, ordering_of, registry_of, unicode_cmap_of, ucs2_cmap_of};

use crate::names::CMapName;
use std::alloc::{AllocError, Global};

const ADOBE: &[u8] = b"Adobe";

const JAPAN1: &[u8] = b"Japan1";

const GB1: &[u8] = b"GB1";

const CNS1: &[u8] = b"CNS1";

const KOREA1: &[u8] = b"Korea1";

const IDENTITY: &[u8] = b"Identity";

/// A family of character collections: the registry and the ordering of a CIDSystemInfo dictionary.
/// Adobe Technical Note 5014.
///
/// Equality and hash are derived: they depend on the variant, and for `Custom` on both texts. So equal families
/// have equal hashes.
#[derive(Debug, Drop, PartialEq, Eq, Hash)]
pub enum CidFamily {
    /// Adobe-Japan1
    AdobeJapan1,
    /// Adobe-GB1
    AdobeGB1,
    /// Adobe-CNS1
    AdobeCNS1,
    /// Adobe-Korea1
    AdobeKorea1,
    /// Adobe-Identity
    AdobeIdentity,
    /// Any other registry and ordering.
    Custom {
        registry: Vec<u8>,
        ordering: Vec<u8>,
    },
}

impl CidFamily {
    /// The family of this registry and ordering; `Custom` if it is none of the other five families.
    ///
    /// It fails only if memory runs out; only a `Custom` allocates memory.
    pub fn from_registry_ordering(
        alloc: Global,
        registry: &[u8],
        ordering: &[u8],
    ) -> Result<CidFamily, AllocError>
        ensures value { IfOk result
            (λ family. family_seen family ≡ family_of registry.now ordering.now) }
        ensures err { OnErr result (IsCustom (family_of registry.now ordering.now)) }
    {
        if registry == ADOBE {
            if let Some(family) = CidFamily::of_adobe(ordering) {
                return Ok(family);
            }
        }
        CidFamily::custom(alloc, registry, ordering)
    }

    /// The Adobe family with this ordering, if it has a variant of its own.
    fn of_adobe(ordering: &[u8]) -> Option<CidFamily>
        ensures { MatchOption result
            (family_of (codes "Adobe") ordering.now ≡ custom (codes "Adobe") ordering.now)
            (λ family. family_seen family ≡ family_of (codes "Adobe") ordering.now) }
    {
        if ordering == JAPAN1 {
            Some(CidFamily::AdobeJapan1)
        } else if ordering == GB1 {
            Some(CidFamily::AdobeGB1)
        } else if ordering == CNS1 {
            Some(CidFamily::AdobeCNS1)
        } else if ordering == KOREA1 {
            Some(CidFamily::AdobeKorea1)
        } else if ordering == IDENTITY {
            Some(CidFamily::AdobeIdentity)
        } else {
            None
        }
    }

    /// The registry, the first part of the name of a character collection.
    pub fn registry(&self) -> &[u8]
        ensures { result.now ≡ registry_of (family_seen self.now) }
    {
        match self {
            CidFamily::Custom { registry, .. } => registry,
            _ => ADOBE,
        }
    }

    /// The ordering, the part of the name after the registry.
    pub fn ordering(&self) -> &[u8]
        ensures { result.now ≡ ordering_of (family_seen self.now) }
    {
        match self {
            CidFamily::AdobeJapan1 => JAPAN1,
            CidFamily::AdobeGB1 => GB1,
            CidFamily::AdobeCNS1 => CNS1,
            CidFamily::AdobeKorea1 => KOREA1,
            CidFamily::AdobeIdentity => IDENTITY,
            CidFamily::Custom { ordering, .. } => ordering,
        }
    }

    /// The CMap from Unicode, in UTF-16, to the CIDs of this family, for horizontal text.
    /// ISO 32000-1, 9.7.5.2.
    #[tactic(auto, unfolding(crate::specs::Names::known_names))]
    pub fn unicode_cmap(&self) -> Option<CMapName<'static>>
        ensures text { option_map name_bytes result ≡ unicode_cmap_of (family_seen self.now) }
        ensures known { IfSome result (λ name. IsNameOf (name_bytes name) name) }
    {
        match self {
            CidFamily::AdobeJapan1 => Some(CMapName::UniJisUtf16H),
            CidFamily::AdobeGB1 => Some(CMapName::UniGbUtf16H),
            CidFamily::AdobeCNS1 => Some(CMapName::UniCnsUtf16H),
            CidFamily::AdobeKorea1 => Some(CMapName::UniKsUtf16H),
            CidFamily::AdobeIdentity | CidFamily::Custom { .. } => None,
        }
    }

    /// The CMap from the CIDs of this family to Unicode, in UCS-2. ISO 32000-1, 9.10.2, and Adobe
    /// Technical Note 5411.
    #[tactic(auto, unfolding(crate::specs::Names::known_names))]
    pub fn ucs2_cmap(&self) -> Option<CMapName<'static>>
        ensures text { option_map name_bytes result ≡ ucs2_cmap_of (family_seen self.now) }
        ensures known { IfSome result (λ name. IsNameOf (name_bytes name) name) }
    {
        match self {
            CidFamily::AdobeJapan1 => Some(CMapName::AdobeJapan1Ucs2),
            CidFamily::AdobeGB1 => Some(CMapName::AdobeGb1Ucs2),
            CidFamily::AdobeCNS1 => Some(CMapName::AdobeCns1Ucs2),
            CidFamily::AdobeKorea1 => Some(CMapName::AdobeKorea1Ucs2),
            CidFamily::AdobeIdentity | CidFamily::Custom { .. } => None,
        }
    }

    /// A copy of the family.
    ///
    /// It fails only if memory runs out; only a `Custom` allocates memory.
    pub fn clone(&self, alloc: Global) -> Result<CidFamily, AllocError>
        ensures same { IfOk result (λ copy. family_seen copy ≡ family_seen self.now) }
        ensures err { OnErr result (IsCustom (family_seen self.now)) }
    {
        match self {
            CidFamily::AdobeJapan1 => Ok(CidFamily::AdobeJapan1),
            CidFamily::AdobeGB1 => Ok(CidFamily::AdobeGB1),
            CidFamily::AdobeCNS1 => Ok(CidFamily::AdobeCNS1),
            CidFamily::AdobeKorea1 => Ok(CidFamily::AdobeKorea1),
            CidFamily::AdobeIdentity => Ok(CidFamily::AdobeIdentity),
            CidFamily::Custom { registry, ordering } => {
                CidFamily::custom(alloc, registry, ordering)
            }
        }
    }

    /// A `Custom` of copies of these texts.
    fn custom(alloc: Global, registry: &[u8], ordering: &[u8]) -> Result<CidFamily, AllocError>
        ensures { IfOk result (λ family. family_seen family ≡ custom registry.now ordering.now) }
    {
        Ok(CidFamily::Custom {
            registry: Vec::from_slice(alloc, registry)?,
            ordering: Vec::from_slice(alloc, ordering)?,
        })
    }
}

/// A character collection: its family, and the number of its supplement. Equality and hash depend on both.
#[derive(Debug, Drop, PartialEq, Eq, Hash)]
pub struct CharacterCollection {
    pub family: CidFamily,
    pub supplement: i32,
}

impl CharacterCollection {
    /// A copy of the collection.
    ///
    /// It fails only if memory runs out; only a collection of a `Custom` family allocates memory.
    pub fn clone(&self, alloc: Global) -> Result<CharacterCollection, AllocError>
        ensures same { IfOk result (λ copy. collection_seen copy ≡ collection_seen self.now) }
        ensures err { OnErr result (IsCustom (family_seen self.now.family)) }
    {
        Ok(CharacterCollection {
            family: self.family.clone(alloc)?,
            supplement: self.supplement,
        })
    }
}
