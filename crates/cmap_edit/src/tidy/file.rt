//! A file written anew in the fewest declarations that don't overlap.

ghost use Rattle.std.specs.Prelude.{◌≡◌, ℕ, IfOk, map};
ghost use Rattle.cmap_values.specs.DeclarationsSeen.{bf_entry_seen, by_length_seen, lists_seen};
ghost use Rattle.cmap_values.specs.Files.{of_length};
ghost use Rattle.cmap_values.specs.FilesSeen.{file_seen};
ghost use Rattle.cmap_edit.specs.Kinds.{AreTidiedOf};
ghost use Rattle.cmap_edit.specs.Tidied.{AreTidiedLists, IsTidied};

use crate::tidy::cid_lists::tidied_cids;
use crate::tidy::counting::{CountOn, Counting, Same};
use crate::tidy::text_lists::tidied_texts;
use cmap_values::declarations::{ByLength, CidRange, Lists};
use cmap_values::file::File;
use cmap_values::memory::both;
use std::alloc::{AllocError, Global};

/// A file with the same answers for each code, in the fewest declarations that don't overlap. The codes of a
/// declaration differ in their last byte alone (Adobe Technical Note 5014), and within a declaration the
/// last byte of a text doesn't pass 255 (Adobe Technical Note 5411; ISO 32000-1, 9.10.3).
///
/// A list stays as it is where a declaration gives nothing to some code: the CID would pass 32 bits, the
/// text has no units, or the last unit would pass 16 bits. Metadata, codespace ranges and the names of used
/// files stay.
///
/// A declaration for many codes becomes one for each row of 256 codes, so a list may grow to 2^24
/// declarations.
///
/// The function fails only if memory runs out.
pub fn tidy<'d>(alloc: Global, file: &File<'d>) -> Result<File<'d>, AllocError>
    ensures { IfOk result (λ tidied. IsTidied (file_seen file.now) (file_seen tidied)) }
{
    let metadata = file.metadata.clone(alloc);
    let lists = tidied_lists(alloc, &file.lists);
    let (metadata, lists) = both(metadata, lists)?;
    let uses = Vec::from_slice(alloc, file.uses.as_slice())?;
    Ok(File {
        metadata,
        lists,
        uses,
    })
}

/// The lists, written anew. Codespace ranges stay.
fn tidied_lists(alloc: Global, lists: &Lists) -> Result<Lists, AllocError>
    ensures { IfOk result (λ tidied. AreTidiedLists (lists_seen lists.now) (lists_seen tidied)) }
{
    let cids = cids_anew::<CountOn>(alloc, &lists.cids);
    let notdefs = cids_anew::<Same>(alloc, &lists.notdefs);
    let bfs = tidied_texts(alloc, lists.bfs.as_slice());
    let spaces = Vec::from_slice(alloc, lists.spaces.as_slice());
    let ((cids, notdefs), (bfs, spaces)) = both(both(cids, notdefs), both(bfs, spaces))?;
    Ok(Lists {
        cids,
        notdefs,
        bfs,
        spaces,
    })
}

/// The lists of CIDs or of notdef declarations for codes of each length, written anew.
fn cids_anew<K: Counting>(
    alloc: Global,
    lists: &ByLength<Vec<CidRange>>,
) -> Result<ByLength<Vec<CidRange>>, AllocError>
    ensures { IfOk result (λ tidied. (len : ℕ) → AreTidiedOf K.kind
        (of_length (by_length_seen lists.now) len) (of_length (by_length_seen tidied) len)) }
{
    Ok(ByLength {
        one: tidied_cids::<K>(alloc, lists.one.as_slice())?,
        two: tidied_cids::<K>(alloc, lists.two.as_slice())?,
        three: tidied_cids::<K>(alloc, lists.three.as_slice())?,
        four: tidied_cids::<K>(alloc, lists.four.as_slice())?,
    })
}
