//! The code of each text of a font: the first of the codes that stand for the text.

ghost use Rattle.std.specs.Prelude.{◌≡◌, All, IfOk, option_and_then};
ghost use Rattle.std.specs.List.{AllZip};
ghost use Rattle.std.specs.Global.{Vec as List_of};
ghost use Rattle.cmap_encode.specs.KeyCodesSeen.{IsCodeRun};
ghost use Rattle.cmap_encode.specs.IndexSeen.{AreFirstsOf, IsIndexOf, own_at};
ghost use Rattle.cmap_encode.specs.Maps.{maps_seen};
ghost use Rattle.cmap_encode.specs.TreeSeen.{step_of};

use crate::by_character::add_characters;
use crate::by_cid::add_cids;
use crate::gathered::Gathered;
use crate::glyph_codes::GlyphCodes;
use crate::key_codes::{CodeRun, KeyCodes};
use crate::maps::Maps;
use crate::rank::Ranked;
use crate::tree::Tree;
use std::alloc::{AllocError, Global};

/// The first code of each text: the code with the best rank, then with the fewest bytes, then with the least number.
#[derive(Drop)]
pub(crate) struct Index {
    /// The prefixes of texts before their last characters, as nodes.
    tree: Tree,
    /// The first code of each last character, for each node that a last character follows.
    firsts: Vec<Option<Box<KeyCodes>>>,
}

impl Index {
    /// The index of a font. A code counts if it lies in a codespace range and none of its prefixes does.
    pub(crate) fn build(alloc: Global, maps: &Maps<'_>) -> Result<Index, AllocError>
        ensures { IfOk result (IsIndexOf (maps_seen maps.now)) }
    {
        let gathered = Gathered::build(alloc, maps)?;
        let glyphs = GlyphCodes::build(alloc, gathered.cids)?;
        let mut texts = gathered.texts;
        add_cids(alloc, &mut texts, maps.font.collection, &glyphs.firsts)?;
        add_characters(alloc, &mut texts, maps, &glyphs)?;
        Ok(Index {
            tree: texts.tree,
            firsts: firsts_of(alloc, texts.lists)?,
        })
    }

    /// The code of the text of a node followed by a last character. Without a node, there is no code.
    pub(crate) fn find(&self, node: Option<usize>, last: u32) -> Option<Ranked>
        ensures { result ≡ own_at self.now node last }
    {
        self.firsts.get(node?)?.as_ref()?.find(last)
    }

    /// The node of the text of a node followed by one more character.
    pub(crate) fn after(&self, node: Option<usize>, character: char) -> Option<usize>
        ensures { result ≡ option_and_then (λ n. step_of self.now.tree n character) node }
    {
        self.tree.step(node?, character)
    }
}

/// The first code of each key, for each list that has runs.
fn firsts_of(
    alloc: Global,
    lists: Vec<Vec<CodeRun>>,
) -> Result<Vec<Option<Box<KeyCodes>>>, AllocError>
    requires { All (λ (list : List_of CodeRun). All IsCodeRun list.items) lists.items }
    ensures { IfOk result
        (λ all. AllZip (λ list. AreFirstsOf list.items) lists.items all.items) }
{
    let mut all = Vec::with_capacity(alloc, lists.len())?;
    for runs in lists {
        all.push(first_codes(alloc, runs)?)?;
    }
    Ok(all)
}

/// The first code of each key, if there are runs.
fn first_codes(alloc: Global, runs: Vec<CodeRun>) -> Result<Option<Box<KeyCodes>>, AllocError>
    requires { All IsCodeRun runs.items }
    ensures { IfOk result (AreFirstsOf runs.items) }
{
    if runs.is_empty() {
        return Ok(None);
    }
    let firsts = KeyCodes::first(alloc, runs)?;
    Ok(Some(Box::new(alloc, firsts)?))
}
