//! What stands for a piece of a text.

ghost use Rattle.std.specs.Prelude.{◌≡◌, ◌+◌, ◌<◌, ◌^◌, ◌++◌, ◌∷◌, [], Some, OnOk, option_and_then, option_map};
ghost use Rattle.cmap_encode.specs.Alike.{first_given};
ghost use Rattle.cmap_encode.specs.Letters.{counted};
ghost use Rattle.cmap_encode.specs.ChoicesSeen.{choice_seen, own_choice, owned, owned_at};
ghost use Rattle.cmap_encode.specs.Standing as standing;
ghost use Rattle.cmap_encode.specs.TreeSeen.{step_of};

use crate::alike::{alike_to, national_of};
use crate::code::Code;
use crate::index::Index;
use crate::letters::{Row, SELECTORS, SUPPLEMENT, is_selector};
use crate::rank::Ranked;
use crate::tree::EMPTY;
use std::alloc::AllocError;

/// How well a code stands for a piece of a text, best first.
#[derive(Clone, Copy, Debug, PartialEq, Eq)]
pub enum Grade {
    /// The ToUnicode CMap has the piece as the text of the code.
    Stated,
    /// The code has the CID that the map from Unicode gives to the character.
    Canonical,
    /// The collection's map to Unicode has the piece as the text of the code's CID.
    Collection,
    /// The code shows a text that looks or means the same, or no code stands for a variation selector.
    Alike,
    /// The code is the byte of a character of ASCII that a national version of ISO 646 shows otherwise.
    National,
}

/// What stands for a piece of a text.
#[derive(Clone, Copy)]
pub(crate) struct Choice {
    /// The code; `None` for a variation selector that no code shows.
    pub(crate) code: Option<Code>,
    pub(crate) grade: Grade,
}

impl Choice {
    /// Adds the bytes of the code to a string.
    pub(crate) fn push_to(self, string: &mut Vec<u8>) -> Result<(), AllocError>
        ensures { OnOk result (string.new.items ≡ string.old.items ++ (choice_seen self).bytes) }
    {
        match self.code {
            Some(code) => code.push_to(string),
            None => Ok(()),
        }
    }
}

/// The choices for pieces of texts: the codes of an index, or the codes of similar characters if the index has no
/// code.
#[derive(Drop)]
pub(crate) struct Choices {
    pub(crate) index: Index,
    /// Whether only codes that are read as a text stand for the text.
    pub(crate) exact: bool,
}

impl Choices {
    /// What stands for a character.
    pub(crate) fn one(&self, character: char) -> Option<Choice>
        ensures { option_map choice_seen result
            ≡ standing.one (owned self.now.index) self.now.exact character }
    {
        if is_no_character(character) {
            return None;
        }
        match self.longer(Some(EMPTY), character) {
            Some(own) => Some(own),
            None => self.other(character),
        }
    }

    /// The index's choice for the text of a node followed by a last character, which is the only choice for a text of
    /// several characters. Without a node, there is no choice.
    pub(crate) fn longer(&self, node: Option<usize>, last: char) -> Option<Choice>
        ensures { option_map choice_seen result ≡ owned_at self.now.index node last }
    {
        Some(self.index.find(node, u32::from(last))?.choice())
    }

    /// What stands for a character that has no code of its own.
    fn other(&self, character: char) -> Option<Choice>
        ensures { option_map choice_seen result
            ≡ standing.other (owned self.now.index) self.now.exact character }
    {
        if self.exact {
            return None;
        }
        match self.near(character) {
            Some(near) => Some(near),
            None => self.national(character).or(selector(character)),
        }
    }

    /// The code of a character with a variation selector, or else the code of a similar character.
    fn near(&self, character: char) -> Option<Choice>
        ensures { option_map choice_seen result
            ≡ standing.near (owned self.now.index) self.now.exact character }
    {
        let own = self.nearest(character)?;
        Some(Choice {
            code: Some(own.code),
            grade: Grade::Alike,
        })
    }

    /// The code of a character with a variation selector, or else the code of a similar character, as the own code of
    /// that other text.
    fn nearest(&self, character: char) -> Option<Ranked>
        ensures { option_map own_choice result
            ≡ standing.nearest (owned self.now.index) self.now.exact character }
    {
        match self.selected(character) {
            Some(own) => Some(own),
            None => self.first_own(alike_to(character)),
        }
    }

    /// The code of the character with the first variation selector with which it has a code.
    fn selected(&self, character: char) -> Option<Ranked>
        ensures { option_map own_choice result
            ≡ standing.selected (owned self.now.index) self.now.exact character }
    {
        let node = self.index.after(Some(EMPTY), character)?;
        match self.first_after(node, SELECTORS) {
            Some(own) => Some(own),
            None => self.first_after(node, SUPPLEMENT),
        }
    }

    /// The code of the text of a node followed by the first of these characters with which the text has a code.
    fn first_after(&self, node: usize, row: Row) -> Option<Ranked>
        requires { row.first + row.count < 2 ^ 32 }
        ensures { option_map own_choice result
            ≡ first_given (owned_at self.now.index (Some node)) (counted row.first row.count) }
    {
        for last in row.first..row.first + row.count {
            if let Some(own) = self.index.find(Some(node), last) {
                return Some(own);
            }
        }
        None
    }

    /// The code of the first of these characters that has a code.
    fn first_own(&self, characters: &[char]) -> Option<Ranked>
        ensures { option_map own_choice result
            ≡ first_given (λ one. owned self.now.index (one ∷ [])) characters.now }
    {
        for character in characters {
            if let Some(own) = self.index.find(Some(EMPTY), u32::from(*character)) {
                return Some(own);
            }
        }
        None
    }

    /// The byte of the character, as the code of a character that national versions of ISO 646 show by this byte.
    fn national(&self, character: char) -> Option<Choice>
        ensures { option_map choice_seen result
            ≡ standing.national (owned self.now.index) self.now.exact character }
    {
        self.first_national(character, national_of(character))
    }

    /// The byte of the character, as the code of the first of these other characters whose code is this byte.
    fn first_national(&self, character: char, others: &[char]) -> Option<Choice>
        ensures { option_map choice_seen result ≡ first_given
            (λ other. standing.national_as character (owned self.now.index (other ∷ []))) others.now }
    {
        for other in others {
            if let Some(national) = self.national_by(character, *other) {
                return Some(national);
            }
        }
        None
    }

    /// The byte of the character, if it is the code of this other character.
    fn national_by(&self, character: char, other: char) -> Option<Choice>
        ensures { option_map choice_seen result
            ≡ standing.national_as character (owned self.now.index (other ∷ [])) }
    {
        let own = self.index.find(Some(EMPTY), u32::from(other))?;
        if !own.code.is_byte(character) {
            return None;
        }
        Some(Choice {
            code: Some(own.code),
            grade: Grade::National,
        })
    }

    /// The node of the text of this node followed by a character.
    pub(crate) fn after(&self, node: Option<usize>, character: char) -> Option<usize>
        ensures { result ≡ option_and_then (λ n. step_of self.now.index.tree n character) node }
    {
        self.index.after(node, character)
    }
}

/// The choice without a code for a variation selector, which needs no code.
fn selector(character: char) -> Option<Choice>
    ensures { option_map choice_seen result ≡ standing.selector character }
{
    if !is_selector(character) {
        return None;
    }
    Some(Choice {
        code: None,
        grade: Grade::Alike,
    })
}

/// Whether this character, as a text, only means that there is no character.
fn is_no_character(character: char) -> bool
    ensures { result ≡ standing.is_no_character character }
{
    matches!(character, '\0' | '\u{FFFD}' | '\u{FFFF}')
}
