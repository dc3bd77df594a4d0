//! The two kinds of declarations of CIDs: the CIDs count on, or all codes have one CID.

ghost use Rattle.std.specs.Prelude.{◌≡◌, ◌+◌, ℕ, Option};
ghost use Rattle.cmap_edit.specs.Kinds.{IsKind, Kind, cid_kind, notdef_kind};
ghost use Rattle.cmap_edit.specs.KindLaws.{cids_are, notdefs_are};

/// How declarations give CIDs to their codes.
pub(crate) trait Counting {
    /// The answer for a code.
    ghost Answer: { Type 0 };

    /// What a declaration gives to its codes.
    ghost kind: { Kind Answer };

    /// What the code with this offset adds to the CID of the first code.
    fn step(offset: u32) -> u32
        ensures { (cid : ℕ) → kind.moved cid offset ≡ cid + result };

    // What proofs for both kinds rest on.
    ghost is_kind: { IsKind kind };
}

/// The CIDs count on from code to code.
pub(crate) struct CountOn;

impl Counting for CountOn {
    ghost Answer = { Option ℕ };

    ghost kind = { cid_kind };

    fn step(offset: u32) -> u32 {
        offset
    }

    ghost is_kind = { cids_are };
}

/// All codes have the same CID.
pub(crate) struct Same;

impl Counting for Same {
    ghost Answer = { ℕ };

    ghost kind = { notdef_kind };

    fn step(_offset: u32) -> u32 {
        0
    }

    ghost is_kind = { notdefs_are };
}
