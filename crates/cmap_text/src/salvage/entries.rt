//! Entries of sections, place by place.

ghost use Rattle.std.specs.Prelude.{◌≡◌, List, [], ◌∷◌, None, Some, option_map, IfOk, OnOk};
ghost use Rattle.cmap_tokens.specs.TokenSeen.{piece_seen, token_seen};
ghost use Rattle.cmap_values.specs.DeclarationsSeen.{codespace_seen, lists_seen};
ghost use Rattle.cmap_values.specs.Files.{Declaration};
ghost use Rattle.cmap_values.specs.Outcomes.{Outcome};
ghost use Rattle.cmap_values.specs.UnitsSeen.{units_seen};
ghost use Rattle.cmap_values.specs.declared.fault.Reason.TheVariants.{CidExpected, TextExpected, UnequalLengths};
ghost use Rattle.cmap_text.specs.Salvage as salvage;
ghost use Rattle.cmap_text.specs.SalvageSeen.{AddsLists, FillsPlace, MendsPlace, ReadsToken, entry_seen, found_seen, state_seen};
ghost use Rattle.cmap_text.specs.TextFiles.{declares_cid};
ghost use Rattle.cmap_text.specs.TextReading.{adding, cid_in, code_fault, code_in, codespace, destination_in, filed, text_of};
ghost use Rattle.cmap_text.specs.TextSeen.{code_seen, kind_seen, section_seen};

use super::Found;
use super::pieces::{Class, class_of, own_fault};
use super::states::{Entry, Parts, State, TextList};
use crate::entries::{CidKind, Extent};
use crate::sections::Section;
use crate::tokens::{Code, cid_of, code_fault, is_executable};
use cmap_tokens::token::{Piece, Token};
use cmap_values::declarations::{BfRange, CidRange, Codespace};
use cmap_values::fault::{Fault, Reason, Stop};
use cmap_values::names::Cid;
use cmap_values::range::Range;
use cmap_values::units::Units;
use std::alloc::AllocError;

impl<'d> Found<'d> {
    /// Takes a piece of an entry, in the next place of the entry.
    pub(super) fn take_in_entry(
        &mut self,
        piece: &Piece<'d>,
        entry: Entry,
    ) -> Result<State, AllocError>
        ensures { IfOk result (λ state. (state_seen state, found_seen self.new)
            ≡ salvage.take_in_entry (found_seen self.old) (entry_seen entry) (piece_seen piece.now)) }
    {
        if entry.is_empty() && is_closer(piece, entry.section) {
            return Ok(State::Item);
        }
        self.take_part(piece, entry.with_piece(piece))
    }

    /// Takes a piece in the next place of an entry, or passes over the piece.
    fn take_part(&mut self, piece: &Piece<'d>, entry: Entry) -> Result<State, AllocError>
        ensures { IfOk result (λ state. (state_seen state, found_seen self.new)
            ≡ salvage.take_part (found_seen self.old) (entry_seen entry) (piece_seen piece.now)) }
    {
        match &piece.token {
            Ok(token) => match self.fill(token, entry) {
                Ok(state) => Ok(state),
                Err(Fault::Refused(reason)) => {
                    let offset = piece.end;
                    self.add_entry_fault(piece, entry, Stop { offset, reason })
                }
                Err(Fault::Memory) => Err(AllocError),
            },
            Err(malformed) => self.add_entry_fault(piece, entry, own_fault(*malformed)),
        }
    }

    /// Adds the fault of a piece of an entry. The piece may fill its place all the same.
    fn add_entry_fault(
        &mut self,
        piece: &Piece<'d>,
        entry: Entry,
        fault: Stop,
    ) -> Result<State, AllocError>
        ensures { IfOk result (λ state. (state_seen state, found_seen self.new)
            ≡ salvage.entry_fault (found_seen self.old) (entry_seen entry) (piece_seen piece.now) fault) }
    {
        self.faults.push(fault)?;
        match self.mend(piece, entry)? {
            Some(state) => Ok(state),
            None => self.pass_over(piece, entry),
        }
    }

    /// Passes over a piece of an entry. A piece that is alone takes no place.
    fn pass_over(&mut self, piece: &Piece<'d>, entry: Entry) -> Result<State, AllocError>
        ensures { IfOk result (λ state. (state_seen state, found_seen self.new)
            ≡ salvage.passed_over (found_seen self.old) (entry_seen entry) (piece_seen piece.now)) }
    {
        match class_of(piece) {
            Class::Alone => Ok(State::Entry(entry)),
            _ => self.pass_in_entry(piece, entry.at_fault()),
        }
    }

    /// Fills the last place of an entry with a piece at fault that shows the intended part: an empty
    /// text, or an end of a codespace range that is longer than its first code.
    fn mend(&mut self, piece: &Piece<'_>, entry: Entry) -> Result<Option<State>, AllocError>
        ensures { IfOk result (MendsPlace (salvage.mend (lists_seen self.old.said.lists) (entry_seen entry) (piece_seen piece.now))
            self.old self.new) }
    {
        match (entry.section, entry.parts) {
            (Section::Codespaces, Parts::One(low)) => self.mend_high(piece, entry, low),
            (Section::BfChar, Parts::One(start)) => self.mend_text(piece, entry, start, start),
            (Section::BfRange, Parts::Two(start, end)) => self.mend_text(piece, entry, start, end),
            _ => Ok(None),
        }
    }

    /// Fills the place of the high end of a codespace range with a code that is longer than the first.
    fn mend_high(
        &mut self,
        piece: &Piece<'_>,
        entry: Entry,
        low: Code,
    ) -> Result<Option<State>, AllocError>
        ensures { IfOk result (MendsPlace (salvage.mend_high (lists_seen self.old.said.lists) (entry_seen entry) (code_seen low) (piece_seen piece.now))
            self.old self.new) }
    {
        let Some(high) = self.code_of(piece)? else {
            return Ok(None);
        };
        let Some(space) = widened(low, high) else {
            return Ok(None);
        };
        self.said.lists.add_codespace(space)?;
        Ok(Some(State::entry(entry.section)))
    }

    /// Fills the place of a text with an empty string.
    fn mend_text(
        &mut self,
        piece: &Piece<'_>,
        entry: Entry,
        start: Code,
        end: Code,
    ) -> Result<Option<State>, AllocError>
        ensures { IfOk result (MendsPlace (salvage.mend_text (lists_seen self.old.said.lists) (entry_seen entry) (code_seen start) (code_seen end) (piece_seen piece.now))
            self.old self.new) }
    {
        match self.empty_text_of(piece)? {
            Some(units) => {
                self.add_texts(start.number, end.number, units)?;
                Ok(Some(State::entry(entry.section)))
            }
            None => Ok(None),
        }
    }

    /// Fills the next place of an entry. After the last place, adds what the entry declares.
    fn fill(&mut self, token: &Token<'_>, entry: Entry) -> Result<State, Fault<Reason>>
        ensures { FillsPlace (salvage.fill (lists_seen self.old.said.lists) (entry_seen entry) (token_seen token.now))
            self.old self.new result }
    {
        match entry.parts {
            Parts::None => Ok(entry.after_one(self.code(token)?)),
            Parts::One(start) => self.fill_second(token, entry, start),
            Parts::Two(start, end) => self.fill_third(token, entry, start, end),
        }
    }

    /// Fills the second place of an entry.
    fn fill_second(
        &mut self,
        token: &Token<'_>,
        entry: Entry,
        start: Code,
    ) -> Result<State, Fault<Reason>>
        ensures { FillsPlace (salvage.fill_second (lists_seen self.old.said.lists) (entry_seen entry) (code_seen start) (token_seen token.now))
            self.old self.new result }
    {
        match entry.section {
            Section::Codespaces => self.fill_high(token, entry, start),
            Section::Cids(kind, Extent::Single) => self.fill_cid(token, entry, kind, start, start),
            Section::Cids(_, Extent::Range) | Section::BfRange => self.fill_end(
                token, entry, start,
            ),
            Section::BfChar => self.fill_text(token, entry, start, start),
        }
    }

    /// Fills the third place of an entry, or begins its list.
    fn fill_third(
        &mut self,
        token: &Token<'_>,
        entry: Entry,
        start: Code,
        end: Code,
    ) -> Result<State, Fault<Reason>>
        ensures { FillsPlace (salvage.fill_third (lists_seen self.old.said.lists) (entry_seen entry) (code_seen start) (code_seen end) (token_seen token.now))
            self.old self.new result }
    {
        match entry.section {
            Section::Cids(kind, _) => self.fill_cid(token, entry, kind, start, end),
            _ => self.fill_texts(token, entry, start, end),
        }
    }

    /// Fills the place of the high end of a codespace range.
    fn fill_high(
        &mut self,
        token: &Token<'_>,
        entry: Entry,
        low: Code,
    ) -> Result<State, Fault<Reason>>
        ensures { FillsPlace (salvage.fill_high (lists_seen self.old.said.lists) (entry_seen entry) (code_seen low) (token_seen token.now))
            self.old self.new result }
    {
        let high = self.code(token)?;
        self.add_codespace(low, high)?;
        Ok(State::entry(entry.section))
    }

    /// Fills the place of the second code of a range.
    fn fill_end(
        &mut self,
        token: &Token<'_>,
        entry: Entry,
        start: Code,
    ) -> Result<State, Fault<Reason>>
        ensures { FillsPlace (salvage.fill_end (lists_seen self.old.said.lists) (entry_seen entry) (code_seen start) (token_seen token.now))
            self.old self.new result }
    {
        let end = self.code(token)?;
        Ok(entry.after_two(start, end))
    }

    /// Fills the place of a CID.
    fn fill_cid(
        &mut self,
        token: &Token<'_>,
        entry: Entry,
        kind: CidKind,
        start: Code,
        end: Code,
    ) -> Result<State, Fault<Reason>>
        ensures { FillsPlace (salvage.fill_cid (lists_seen self.old.said.lists) (entry_seen entry) (kind_seen kind) (code_seen start) (code_seen end) (token_seen token.now))
            self.old self.new result }
    {
        let cid = cid_in(token)?;
        self.add_cids(kind, start, end, cid)?;
        Ok(State::entry(entry.section))
    }

    /// Fills the place of a text.
    fn fill_text(
        &mut self,
        token: &Token<'_>,
        entry: Entry,
        start: Code,
        end: Code,
    ) -> Result<State, Fault<Reason>>
        ensures { FillsPlace (salvage.fill_text (lists_seen self.old.said.lists) (entry_seen entry) (code_seen start) (code_seen end) (token_seen token.now))
            self.old self.new result }
    {
        let units = self.units(token)?;
        self.add_texts(start.number, end.number, units)?;
        Ok(State::entry(entry.section))
    }

    /// Fills the place of a text, or begins a list of texts.
    fn fill_texts(
        &mut self,
        token: &Token<'_>,
        entry: Entry,
        start: Code,
        end: Code,
    ) -> Result<State, Fault<Reason>>
        ensures { FillsPlace (salvage.fill_texts (lists_seen self.old.said.lists) (entry_seen entry) (code_seen start) (code_seen end) (token_seen token.now))
            self.old self.new result }
    {
        if is_executable(token, b"[") {
            let count = self.said.lists.bfs.len();
            return Ok(State::List(TextList::new(start, end, count, entry.begins_line)));
        }
        self.fill_text(token, entry, start, end)
    }

    /// The code that a token is.
    fn code(&mut self, token: &Token<'_>) -> Result<Code, Fault<Reason>>
        ensures reads { ReadsToken (code_in (token_seen token.now)) code_seen (code_fault (token_seen token.now)) result }
        ensures same { found_seen self.new ≡ found_seen self.old }
    {
        match self.decoder.code(token)? {
            Some(code) => Ok(code),
            None => Err(Fault::Refused(code_fault(token))),
        }
    }

    /// The units of the destination that a token is.
    fn units(&mut self, token: &Token<'_>) -> Result<Units, Fault<Reason>>
        ensures reads { ReadsToken (destination_in (token_seen token.now)) units_seen TextExpected result }
        ensures same { found_seen self.new ≡ found_seen self.old }
    {
        match self.decoder.destination(token)? {
            Some(units) => Ok(units),
            None => Err(Fault::Refused(Reason::TextExpected)),
        }
    }

    /// The code that a piece is.
    fn code_of(&mut self, piece: &Piece<'_>) -> Result<Option<Code>, AllocError>
        ensures code { IfOk result (λ found. option_map code_seen found ≡ salvage.code_of_piece (piece_seen piece.now)) }
        ensures same { found_seen self.new ≡ found_seen self.old }
    {
        match &piece.token {
            Ok(token) => self.decoder.code(token),
            Err(_) => Ok(None),
        }
    }

    /// The empty text, if a piece is an empty string.
    pub(super) fn empty_text_of(&mut self, piece: &Piece<'_>) -> Result<Option<Units>, AllocError>
        ensures text { IfOk result (λ found. option_map units_seen found ≡ salvage.empty_text_in (piece_seen piece.now)) }
        ensures same { found_seen self.new ≡ found_seen self.old }
    {
        match &piece.token {
            Ok(token) => self.decoder.empty_text(token),
            Err(_) => Ok(None),
        }
    }

    fn add_codespace(&mut self, low: Code, high: Code) -> Result<(), Fault<Reason>>
        ensures { Outcome (λ done. (declared : List Declaration) × (codespace (code_seen low) (code_seen high) ≡ Some declared)
            × AddsLists declared self.old self.new)
            (λ reason. (reason ≡ UnequalLengths) × (codespace (code_seen low) (code_seen high) ≡ None)
            × (found_seen self.new ≡ found_seen self.old)) result }
    {
        if low.len != high.len {
            return Err(Fault::Refused(Reason::UnequalLengths));
        }
        self.said.lists.add_codespace(Codespace {
            len: low.len,
            low: low.number,
            high: high.number,
        })?;
        Ok(())
    }

    fn add_cids(
        &mut self,
        kind: CidKind,
        start: Code,
        end: Code,
        cid: Cid,
    ) -> Result<(), AllocError>
        ensures { OnOk result (AddsLists (declares_cid (kind_seen kind) (code_seen start).len (filed (code_seen start) end.number cid).1 ∷ []) self.old self.new) }
    {
        let range = Range {
            start: start.number,
            end: end.number,
        };
        let declared = CidRange { range, cid };
        match kind {
            CidKind::Cid => self.said.lists.add_cid(start.len, declared),
            CidKind::Notdef => self.said.lists.add_notdef(start.len, declared),
        }
    }

    /// Adds a declaration of texts for the codes from `start` to `end`, with the units of the text of
    /// the code `start`.
    pub(super) fn add_texts(&mut self, start: u32, end: u32, units: Units) -> Result<(), AllocError>
        ensures { OnOk result (AddsLists (text_of start end (units_seen units)) self.old self.new) }
    {
        let range = Range { start, end };
        self.said.lists.add_bf(BfRange { range, units })
    }
}

/// The codespace range from a code, with bytes 0 before it, to a longer code; `None` if the other code
/// isn't longer.
fn widened(low: Code, high: Code) -> Option<Codespace>
    ensures { option_map (λ space. Declaration.codespace (codespace_seen space) ∷ []) result
        ≡ salvage.widened (code_seen low) (code_seen high) }
{
    if low.len.count() >= high.len.count() {
        return None;
    }
    Some(Codespace {
        len: high.len,
        low: low.number,
        high: high.number,
    })
}

/// Whether a piece closes a section.
fn is_closer(piece: &Piece<'_>, section: Section) -> bool
    ensures { result ≡ salvage.is_closer (section_seen section) (piece_seen piece.now) }
{
    match &piece.token {
        Ok(token) => is_executable(token, section.closer()),
        Err(_) => false,
    }
}

/// The CID that a token is.
fn cid_in(token: &Token<'_>) -> Result<Cid, Fault<Reason>>
    ensures { ReadsToken (cid_in (token_seen token.now)) (λ cid. cid) CidExpected result }
{
    cid_of(token).ok_or(Fault::Refused(Reason::CidExpected))
}
