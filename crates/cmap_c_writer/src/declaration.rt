//! A declaration for a file, as C hands it in.

ghost use Rattle.std.specs.Prelude.{◌≡◌, Some, None, [], ◌∷◌};
ghost use Rattle.cmap_values.specs.DeclarationsSeen.{lists_seen};
ghost use Rattle.cmap_values.specs.Files as files;
ghost use Rattle.cmap_values.specs.Files.{lists_of};
ghost use Rattle.cmap_values.specs.ListsAppended.{append_lists};
ghost use Rattle.cmap_values.specs.Outcomes.{Outcome};
ghost use Rattle.cmap_c_writer.specs.Given.{declared_by, kind_numbered};

use crate::code_lengths::code_length;
use crate::units::units_of;
use crate::written::NoText;
use cmap_values::declarations::{BfRange, CidRange, Codespace, Lists};
use cmap_values::fault::Fault;
use cmap_values::range::Range;
use std::alloc::Global;

/// The content that a declaration gives its codes.
#[derive(Clone, Copy)]
pub(crate) enum Kind {
    /// A codespace range.
    CodespaceRange,
    /// CIDs that count on from code to code.
    CidRange,
    /// One CID for all codes that have no other.
    NotdefRange,
    /// Texts whose last units count on.
    TextRange,
}

impl Kind {
    /// The kind with a number in the C header.
    pub(crate) fn numbered(number: u16) -> Option<Kind>
        ensures { result ≡ kind_numbered number }
    {
        match number {
            0 => Some(Kind::CodespaceRange),
            1 => Some(Kind::CidRange),
            2 => Some(Kind::NotdefRange),
            3 => Some(Kind::TextRange),
            _ => None,
        }
    }
}

/// A declaration for the codes from `first` to `last`. The struct has no padding.
#[repr(C)]
#[derive(Clone, Copy)]
pub struct Declaration<'a> {
    /// The number of the kind of the declaration.
    pub(crate) kind: u16,
    /// The number of bytes of each code, 1 to 4.
    pub(crate) byte_len: u16,
    pub(crate) first: u32,
    pub(crate) last: u32,
    /// The CID of the first code, or of all codes.
    pub(crate) cid: u32,
    /// The text of the first code, in UTF-8.
    pub(crate) text: &'a [u8],
}

impl Declaration<'_> {
    /// Adds the declaration to the lists. A declaration that declares nothing is refused.
    pub(crate) fn add_to(&self, alloc: Global, lists: &mut Lists) -> Result<(), Fault<NoText>>
        ensures { Outcome (λ _. (said : files.Declaration) × (declared_by self.now ≡ Some said)
            × (lists_seen lists.new ≡ append_lists (lists_seen lists.old) (lists_of (said ∷ []))))
            (λ _. declared_by self.now ≡ None) result }
    {
        let Some(len) = code_length(u32::from(self.byte_len)) else {
            return Err(Fault::Refused(NoText));
        };
        let Some(kind) = Kind::numbered(self.kind) else {
            return Err(Fault::Refused(NoText));
        };
        let (low, high, cid) = (self.first, self.last, self.cid);
        let range = Range {
            start: low,
            end: high,
        };
        match kind {
            Kind::CodespaceRange => lists.add_codespace(Codespace { len, low, high })?,
            Kind::CidRange => lists.add_cid(len, CidRange { range, cid })?,
            Kind::NotdefRange => lists.add_notdef(len, CidRange { range, cid })?,
            Kind::TextRange => {
                let units = units_of(alloc, self.text)?;
                lists.add_bf(BfRange { range, units })?;
            }
        }
        Ok(())
    }
}
