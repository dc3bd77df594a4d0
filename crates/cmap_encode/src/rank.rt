//! Codes by how well they stand for a text.

ghost use Rattle.std.specs.Prelude.{◌≡◌, ◌≤◌};
ghost use Rattle.cmap_encode.specs.ChoicesSeen.{choice_seen, grade_of, own_choice};
ghost use Rattle.cmap_encode.specs.Ranks.{place_of};

use crate::choices::{Choice, Grade};
use crate::code::Code;

/// How a code stands for a text, the best rank first.
#[derive(Clone, Copy, PartialEq, Eq)]
pub(crate) enum Rank {
    /// The ToUnicode CMap has the text for the code.
    Stated,
    /// The map from Unicode has the glyph of the code for the character that is the text, and the code is the code of
    /// the character in the form of this map.
    OwnForm,
    /// The map from Unicode has the glyph of the code for the character that is the text. Where the collection's map
    /// reads the glyph as another character, the code is the last code of the glyph.
    Canonical,
    /// The collection's map has the text for the CID of the code.
    Collection,
}

/// The place of the last rank.
pub(crate) const LAST_PLACE: u8 = 3;

impl Rank {
    /// The place of the rank: 0 for the best rank.
    pub(crate) fn place(self) -> u8
        ensures place { result ≡ place_of self }
        ensures last { result ≤ LAST_PLACE }
    {
        match self {
            Rank::Stated => 0,
            Rank::OwnForm => 1,
            Rank::Canonical => 2,
            Rank::Collection => 3,
        }
    }

    /// The grade of the codes of the rank.
    fn grade(self) -> Grade
        ensures { result ≡ grade_of self }
    {
        match self {
            Rank::Stated => Grade::Stated,
            Rank::OwnForm | Rank::Canonical => Grade::Canonical,
            Rank::Collection => Grade::Collection,
        }
    }
}

/// A code that stands for a text.
#[derive(Clone, Copy)]
pub(crate) struct Ranked {
    pub(crate) code: Code,
    pub(crate) rank: Rank,
}

impl Ranked {
    /// The code as the choice for the text.
    pub(crate) fn choice(self) -> Choice
        ensures { choice_seen result ≡ own_choice self }
    {
        Choice {
            code: Some(self.code),
            grade: self.rank.grade(),
        }
    }
}
