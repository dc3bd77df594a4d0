//! Runs of codes by their texts: the characters before the last character, and the last character as a key.

ghost use Rattle.std.specs.Prelude.{◌≡◌, ◌+◌, ◌<◌, ◌≤◌, ◌^◌, ◌++◌, ◌∷◌, [], ℕ, List, Some, IfOk, IfSome, OnOk, length, if◌then◌else◌};
ghost use Rattle.std.specs.Str.{bytes_eq};
ghost use Rattle.cmap_tokens.specs.TextSeen.{text_seen};
ghost use Rattle.cmap_unicode.specs.Characters.{characters_of};
ghost use Rattle.cmap_values.specs.CodeLengths.{length_of};
ghost use Rattle.cmap_encode.specs.KeyCodesSeen.{IsCodeRun};
ghost use Rattle.cmap_encode.specs.RunsSeen.{AddsCharacters, AddsTexts, AreRunsByPrefix, HasNoRuns, Numbers, number_of, runs_of};

use crate::key_codes::CodeRun;
use crate::rank::Ranked;
use crate::tree::{EMPTY, Tree};
use cmap_tokens::utf16::BfString;
use std::alloc::{AllocError, Global};

/// Runs of codes by prefixes: the characters of a text before the last character. The keys of the runs of a prefix are
/// the last characters.
#[derive(Drop)]
pub(crate) struct RunsByPrefix {
    /// Prefixes, and what they begin with, as nodes.
    pub(crate) tree: Tree,
    /// The runs of each node.
    pub(crate) lists: Vec<Vec<CodeRun>>,
}

impl RunsByPrefix {
    /// No runs.
    pub(crate) fn new(alloc: Global) -> Result<RunsByPrefix, AllocError>
        ensures are { IfOk result AreRunsByPrefix }
        ensures none { IfOk result HasNoRuns }
    {
        let mut lists = Vec::new(alloc);
        lists.push(Vec::new(alloc))?;
        Ok(RunsByPrefix {
            tree: Tree::new(alloc),
            lists,
        })
    }

    /// Adds consecutive codes for consecutive texts: the first code for this text, and up to `more` codes after it for
    /// the texts after this text. The result is the number of these further codes, which the 32 bits of a last
    /// character limit.
    pub(crate) fn add_texts(
        &mut self,
        alloc: Global,
        text: &BfString,
        first: Ranked,
        more: u32,
    ) -> Result<u32, AllocError>
        requires are { AreRunsByPrefix self.old }
        requires some { 0 < length (characters_of (text_seen text.now)) }
        requires fits { first.code.number + more < 256 ^ length_of first.code.len }
        ensures within { IfOk result (λ further. further ≤ more) }
        ensures are { OnOk result (AreRunsByPrefix self.new) }
        ensures texts { IfOk result (AddsTexts self.old self.new (text_seen text.now) first) }
    {
        let mut prefix = characters(alloc, text)?;
        let Some(last) = prefix.pop() else {
            return Ok(0);
        };
        let run = CodeRun::from_key(u32::from(last), first, more);
        self.add(alloc, &prefix, run)?;
        Ok(run.range.end - run.range.start)
    }

    /// Adds consecutive codes for consecutive characters, as texts of their own: the first code, if there is one, for
    /// this character, and `more` codes after it for the characters after this character.
    pub(crate) fn add_characters(
        &mut self,
        alloc: Global,
        character: u32,
        first: Option<Ranked>,
        more: u32,
    ) -> Result<(), AllocError>
        requires are { AreRunsByPrefix self.old }
        requires keys { character + more < 2 ^ 32 }
        requires fits { IfSome first
            (λ ranked. ranked.code.number + more < 256 ^ length_of ranked.code.len) }
        ensures are { OnOk result (AreRunsByPrefix self.new) }
        ensures texts { OnOk result (AddsCharacters self.old self.new character first more) }
    {
        let Some(first) = first else {
            return Ok(());
        };
        let run = CodeRun::from_key(character, first, more);
        self.add(alloc, &[], run)?;
        Ok(())
    }

    /// Adds a run to the runs of a prefix.
    fn add(&mut self, alloc: Global, prefix: &[char], run: CodeRun) -> Result<(), AllocError>
        requires are { AreRunsByPrefix self.old }
        requires run { IsCodeRun run }
        ensures are { OnOk result (AreRunsByPrefix self.new) }
        ensures runs { OnOk result ((other : List ℕ) → runs_of self.new other
            ≡ (if bytes_eq other prefix.now then runs_of self.old other ++ run ∷ []
            else runs_of self.old other)) }
    {
        let number = self.number(alloc, prefix)?;
        self.lists[number].push(run)?;
        Ok(())
    }

    /// The node of a prefix. A prefix without a node gets one.
    fn number(&mut self, alloc: Global, prefix: &[char]) -> Result<usize, AllocError>
        requires { AreRunsByPrefix self.old }
        ensures are { OnOk result (AreRunsByPrefix self.new) }
        ensures number { IfOk result (λ number. number_of self.new prefix.now ≡ Some number) }
        ensures runs { OnOk result
            ((other : List ℕ) → runs_of self.new other ≡ runs_of self.old other) }
    {
        let mut node = EMPTY;
        for character in prefix {
            node = self.number_after(alloc, node, *character)?;
        }
        Ok(node)
    }

    /// The node of the prefix of this node followed by a character. A prefix without a node gets one.
    fn number_after(
        &mut self,
        alloc: Global,
        node: usize,
        character: char,
    ) -> Result<usize, AllocError>
        requires { AreRunsByPrefix self.old }
        ensures { IfOk result (λ next. (prefix : List ℕ) → number_of self.old prefix ≡ Some node
            → Numbers self.old (prefix ++ character ∷ []) next self.new) }
    {
        if let Some(next) = self.tree.step(node, character) {
            return Ok(next);
        }
        let next = self.lists.len();
        self.lists.push(Vec::new(alloc))?;
        self.tree.put(node, character, next)?;
        Ok(next)
    }
}

/// The characters of a text.
fn characters(alloc: Global, text: &BfString) -> Result<Vec<char>, AllocError>
    ensures { IfOk result
        (λ characters. characters.items ≡ characters_of (text_seen text.now)) }
{
    match text {
        BfString::Char(only) => {
            let mut characters = Vec::new(alloc);
            characters.push(*only)?;
            Ok(characters)
        }
        BfString::String(text) => text.chars().collect(alloc),
    }
}
