//! Lists of texts, place by place.

ghost use Rattle.std.specs.Prelude.{◌≡◌, option_map, IfOk, OnOk};
ghost use Rattle.cmap_tokens.specs.TokenSeen.{piece_seen};
ghost use Rattle.cmap_values.specs.UnitsSeen.{units_seen};
ghost use Rattle.cmap_text.specs.Salvage as salvage;
ghost use Rattle.cmap_text.specs.SalvageSeen.{found_seen, state_seen, texts_seen};

use super::Found;
use super::pieces::{Class, class_of, fault_of};
use super::states::{Entry, State, TextList};
use crate::sections::Section;
use cmap_tokens::token::Piece;
use cmap_values::fault::Reason;
use cmap_values::units::Units;
use std::alloc::AllocError;

impl<'d> Found<'d> {
    /// Takes a piece of a list of texts.
    pub(super) fn take_in_list(
        &mut self,
        piece: &Piece<'d>,
        list: TextList,
    ) -> Result<State, AllocError>
        ensures { IfOk result (λ state. (state_seen state, found_seen self.new)
            ≡ salvage.take_in_list (found_seen self.old) (texts_seen list) (piece_seen piece.now)) }
    {
        match list.next_code() {
            Some(code) => self.take_text(piece, list, code),
            None => self.take_after_texts(piece, list),
        }
    }

    /// Takes a piece in the place of the text of this code.
    fn take_text(
        &mut self,
        piece: &Piece<'d>,
        list: TextList,
        code: u32,
    ) -> Result<State, AllocError>
        requires { code ≡ list.next }
        ensures { IfOk result (λ state. (state_seen state, found_seen self.new)
            ≡ salvage.take_text (found_seen self.old) (texts_seen list) (piece_seen piece.now)) }
    {
        match self.text_of(piece)? {
            Some(units) => {
                self.add_texts(code, code, units)?;
                Ok(list.after_code(code, piece))
            }
            None => {
                self.faults.push(fault_of(piece, Reason::TextExpected))?;
                self.pass_text(piece, list, code)
            }
        }
    }

    /// Passes over a piece in the place of the text of this code.
    fn pass_text(
        &mut self,
        piece: &Piece<'d>,
        list: TextList,
        code: u32,
    ) -> Result<State, AllocError>
        requires { code ≡ list.next }
        ensures { IfOk result (λ state. (state_seen state, found_seen self.new)
            ≡ salvage.no_text (found_seen self.old) (texts_seen list) (piece_seen piece.now)) }
    {
        match class_of(piece) {
            Class::Part => {
                self.add_empty(piece, code)?;
                Ok(list.after_code(code, piece))
            }
            Class::Alone | Class::OpenBracket => Ok(list.after_piece(piece)),
            Class::CloseBracket => {
                self.end_short_list(list);
                Ok(list.at_fault().after_entry())
            }
            Class::Word => {
                self.lose(list);
                self.take_item(piece)
            }
        }
    }

    /// Adds the empty text of this code, if a piece is an empty string.
    fn add_empty(&mut self, piece: &Piece<'_>, code: u32) -> Result<(), AllocError>
        ensures { OnOk result (found_seen self.new ≡ salvage.adding_empty (found_seen self.old) code (piece_seen piece.now)) }
    {
        match self.empty_text_of(piece)? {
            Some(units) => self.add_texts(code, code, units),
            None => Ok(()),
        }
    }

    /// Removes the texts of a list that is too short, unless the range of the list is nominal.
    fn end_short_list(&mut self, list: TextList)
        ensures { found_seen self.new ≡ salvage.short_list (found_seen self.old) (texts_seen list) }
    {
        if !list.is_nominal() {
            self.lose(list);
        }
    }

    /// Takes a piece in the place of the `]` of a list.
    fn take_after_texts(&mut self, piece: &Piece<'d>, list: TextList) -> Result<State, AllocError>
        ensures { IfOk result (λ state. (state_seen state, found_seen self.new)
            ≡ salvage.take_after_texts (found_seen self.old) (texts_seen list) (piece_seen piece.now)) }
    {
        match class_of(piece) {
            Class::CloseBracket => Ok(State::entry(Section::BfRange)),
            _ => {
                self.faults.push(fault_of(piece, Reason::BracketExpected))?;
                self.pass_after_texts(piece, list)
            }
        }
    }

    /// Passes over a piece in the place of the `]` of a list.
    fn pass_after_texts(&mut self, piece: &Piece<'d>, list: TextList) -> Result<State, AllocError>
        ensures { IfOk result (λ state. (state_seen state, found_seen self.new)
            ≡ salvage.past_texts (found_seen self.old) (texts_seen list) (piece_seen piece.now)) }
    {
        match class_of(piece) {
            Class::Word => self.take_item(piece),
            Class::Part => self.end_list(piece, list),
            _ => Ok(list.after_piece(piece)),
        }
    }

    /// Takes a part in the place of the `]` of a list.
    fn end_list(&mut self, piece: &Piece<'d>, list: TextList) -> Result<State, AllocError>
        ensures { IfOk result (λ state. (state_seen state, found_seen self.new)
            ≡ salvage.end_list (found_seen self.old) (texts_seen list) (piece_seen piece.now)) }
    {
        if list.lacks_bracket(piece) {
            return self.take_in_entry(piece, Entry::new(Section::BfRange));
        }
        self.lose(list);
        Ok(State::PassingList(list.at_fault()))
    }

    /// Removes the texts of a list.
    fn lose(&mut self, list: TextList)
        ensures { found_seen self.new ≡ salvage.losing (found_seen self.old) (texts_seen list) }
    {
        self.said.lists.bfs.truncate(list.kept);
    }

    /// The text that a piece is.
    fn text_of(&mut self, piece: &Piece<'_>) -> Result<Option<Units>, AllocError>
        ensures text { IfOk result (λ found. option_map units_seen found ≡ salvage.text_in (piece_seen piece.now)) }
        ensures same { found_seen self.new ≡ found_seen self.old }
    {
        match &piece.token {
            Ok(token) => self.decoder.destination(token),
            Err(_) => Ok(None),
        }
    }
}
