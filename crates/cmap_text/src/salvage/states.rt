//! The states of the reading of a text past its faults.

ghost use Rattle.std.specs.Prelude.{◌≡◌, ◌+◌, nat_le, false, true, MatchOption};
ghost use Rattle.cmap_tokens.specs.TokenSeen.{piece_seen};
ghost use Rattle.cmap_text.specs.Salvage as salvage;
ghost use Rattle.cmap_text.specs.Salvage.{list_after};
ghost use Rattle.cmap_text.specs.SalvageSeen.{entry_seen, rest_seen, state_seen, texts_seen};
ghost use Rattle.cmap_text.specs.TextSeen.{code_seen, section_seen};

use super::pieces::{Class, class_of, is_string};
use crate::entries::Extent;
use crate::keys::Key;
use crate::sections::Section;
use crate::tokens::Code;
use cmap_tokens::token::Piece;
use cmap_values::fault::Reason;

/// What comes next.
#[derive(Clone, Copy)]
pub(super) enum State {
    /// An item.
    Item,
    /// The value of this key.
    Value(Key),
    /// A part of an entry, or the closer of its section.
    Entry(Entry),
    /// A piece of an entry at fault.
    AtFault(AtFault),
    /// A piece of a list of an entry at fault, up to its `]`.
    PassingList(AtFault),
    /// A piece of the rest of a line in this section.
    PassingLine(Section),
    /// A text of a list, or the `]` after the texts.
    List(TextList),
}

impl State {
    /// A new entry.
    pub(super) fn entry(section: Section) -> State
        ensures { state_seen result ≡ salvage.in_entry (salvage.new_entry (section_seen section)) }
    {
        State::Entry(Entry::new(section))
    }
}

/// The parts of an entry, as far as they are read.
#[derive(Clone, Copy)]
pub(super) enum Parts {
    None,
    One(Code),
    Two(Code, Code),
}

/// An entry, as far as it is read.
#[derive(Clone, Copy)]
pub(super) struct Entry {
    pub(super) section: Section,
    pub(super) parts: Parts,
    /// Whether a piece of the entry begins a line, up to and including the piece in its first
    /// place.
    pub(super) begins_line: bool,
}

impl Entry {
    /// An entry without parts.
    pub(super) fn new(section: Section) -> Entry
        ensures { entry_seen result ≡ salvage.new_entry (section_seen section) }
    {
        Entry {
            section,
            parts: Parts::None,
            begins_line: false,
        }
    }

    /// Whether the entry has no parts.
    pub(super) fn is_empty(&self) -> bool
        ensures { result ≡ salvage.no_parts (entry_seen self.now).parts }
    {
        matches!(self.parts, Parts::None)
    }

    /// The entry with `begins_line` set for the piece that comes next.
    pub(super) fn with_piece(self, piece: &Piece<'_>) -> Entry
        ensures { entry_seen result ≡ salvage.with_piece (entry_seen self) (piece_seen piece.now) }
    {
        Entry {
            begins_line: self.begins_line || self.is_empty() && piece.begins_line,
            ..self
        }
    }

    /// The state after the first code of the entry.
    pub(super) fn after_one(self, code: Code) -> State
        ensures { state_seen result
            ≡ salvage.in_entry (salvage.with_parts (entry_seen self) (salvage.one (code_seen code))) }
    {
        State::Entry(Entry {
            parts: Parts::One(code),
            ..self
        })
    }

    /// The state after both codes.
    pub(super) fn after_two(self, start: Code, end: Code) -> State
        ensures { state_seen result
            ≡ salvage.in_entry (salvage.with_parts (entry_seen self) (salvage.two (code_seen start) (code_seen end))) }
    {
        State::Entry(Entry {
            parts: Parts::Two(start, end),
            ..self
        })
    }

    /// The rest of the entry, from its next place on.
    pub(super) fn at_fault(self) -> AtFault
        ensures { rest_seen result ≡ salvage.rest_of (entry_seen self) }
    {
        AtFault {
            section: self.section,
            places: self.places_left(),
            begins_line: self.begins_line,
        }
    }

    /// Why the next place of the entry isn't filled.
    pub(super) fn missing(&self) -> Reason
        ensures { result ≡ salvage.missing (entry_seen self.now) }
    {
        match (self.parts, self.section) {
            (Parts::None, _) => Reason::CodeExpected,
            (Parts::One(_), Section::Cids(_, Extent::Single)) => Reason::CidExpected,
            (Parts::One(_), Section::BfChar) => Reason::TextExpected,
            (Parts::One(_), _) => Reason::CodeExpected,
            (Parts::Two(_, _), Section::Cids(_, _)) => Reason::CidExpected,
            (Parts::Two(_, _), _) => Reason::TextExpected,
        }
    }

    /// Whether the entry ends before a piece that begins a line with this number of parts.
    pub(super) fn is_short(&self, piece: &Piece<'_>, parts: u8) -> bool
        ensures { result ≡ salvage.is_short parts (entry_seen self.now) (piece_seen piece.now) }
    {
        !self.is_empty() && class_of(piece) != Class::Word && parts != self.places_left()
    }

    /// How many places aren't filled.
    pub(super) fn places_left(&self) -> u8
        ensures { result ≡ (salvage.rest_of (entry_seen self.now)).places }
    {
        let places = places_of(self.section);
        match self.parts {
            Parts::None => places,
            Parts::One(_) => places - 1,
            Parts::Two(_, _) => places - 2,
        }
    }
}

/// How many places an entry of a section has.
pub(super) fn places_of(section: Section) -> u8
    ensures { result ≡ salvage.places_of (section_seen section) }
{
    match section {
        Section::Codespaces | Section::Cids(_, Extent::Single) | Section::BfChar => 2,
        Section::Cids(_, Extent::Range) | Section::BfRange => 3,
    }
}

/// The rest of an entry at fault.
#[derive(Clone, Copy)]
pub(super) struct AtFault {
    pub(super) section: Section,
    /// How many places are left.
    places: u8,
    /// Whether the entry begins a line.
    begins_line: bool,
}

impl AtFault {
    /// The rest of a line from which no further entry is read.
    pub(super) fn in_line(section: Section) -> AtFault
        ensures { rest_seen result ≡ salvage.rest_in_line (section_seen section) }
    {
        AtFault {
            section,
            places: 0,
            begins_line: true,
        }
    }

    /// The state after one more part.
    pub(super) fn after_part(self) -> State
        ensures { state_seen result ≡ salvage.after_part (rest_seen self) }
    {
        if self.places <= 1 {
            self.after_entry()
        } else {
            State::AtFault(AtFault {
                places: self.places - 1,
                ..self
            })
        }
    }

    /// The state after the entry.
    pub(super) fn after_entry(self) -> State
        ensures { state_seen result ≡ salvage.after_entry (rest_seen self) }
    {
        if self.begins_line {
            State::PassingLine(self.section)
        } else {
            State::entry(self.section)
        }
    }
}

/// A list of texts, as far as it is read.
#[derive(Clone, Copy)]
pub(super) struct TextList {
    /// The first code.
    first: u32,
    /// The code of the next place.
    next: u64,
    /// The last code.
    last: u32,
    /// How many texts there were before the list.
    pub(super) kept: usize,
    /// Whether its entry begins a line.
    begins_line: bool,
    /// Whether the entry begins a line, and no piece of the list does.
    is_one_line: bool,
}

impl TextList {
    /// The list of the codes from the first of an entry to the second, before its first text.
    pub(super) fn new(start: Code, end: Code, kept: usize, begins_line: bool) -> TextList
        ensures { texts_seen result ≡ record {
          first = start.number;
          next = start.number;
          last = end.number;
          kept = kept;
          begins_line = begins_line;
          one_line = begins_line;
        } }
    {
        TextList {
            first: start.number,
            next: u64::from(start.number),
            last: end.number,
            kept,
            begins_line,
            is_one_line: begins_line,
        }
    }

    /// The code whose text comes next; `None` if the places of all codes are filled.
    pub(super) fn next_code(&self) -> Option<u32>
        ensures { MatchOption result (nat_le self.now.next self.now.last ≡ false)
            (λ code. (nat_le self.now.next self.now.last ≡ true) × (code ≡ self.now.next)) }
    {
        if self.next <= u64::from(self.last) {
            Some(self.next as u32)
        } else {
            None
        }
    }

    /// The state after a piece that fills no place.
    pub(super) fn after_piece(self, piece: &Piece<'_>) -> State
        ensures { state_seen result ≡ list_after (texts_seen self) (piece_seen piece.now) self.next }
    {
        State::List(TextList {
            is_one_line: self.is_one_line && !piece.begins_line,
            ..self
        })
    }

    /// The state after a piece that fills the place of this code.
    pub(super) fn after_code(self, code: u32, piece: &Piece<'_>) -> State
        ensures { state_seen result ≡ list_after (texts_seen self) (piece_seen piece.now) (code + 1) }
    {
        State::List(TextList {
            next: u64::from(code) + 1,
            is_one_line: self.is_one_line && !piece.begins_line,
            ..self
        })
    }

    /// Whether more places are left than are filled.
    pub(super) fn is_nominal(&self) -> bool
        ensures { result ≡ salvage.is_nominal (texts_seen self.now) }
    {
        let filled = self.next.saturating_sub(u64::from(self.first));
        let left = (u64::from(self.last) + 1).saturating_sub(self.next);
        filled < left
    }

    /// Whether the `]` of the list is missing before this piece, which comes after all texts of the
    /// list.
    pub(super) fn lacks_bracket(&self, piece: &Piece<'_>) -> bool
        ensures { result ≡ salvage.lacks_bracket (texts_seen self.now) (piece_seen piece.now) }
    {
        self.is_one_line && piece.begins_line && is_string(piece)
    }

    /// The rest of the entry of the list, if the list is lost.
    pub(super) fn at_fault(self) -> AtFault
        ensures { rest_seen result ≡ salvage.rest_of_list (texts_seen self) }
    {
        AtFault {
            section: Section::BfRange,
            places: 1,
            begins_line: self.begins_line,
        }
    }
}
