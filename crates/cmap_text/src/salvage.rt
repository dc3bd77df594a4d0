//! The content of a text apart from its faults.

ghost use Rattle.std.specs.Prelude.{◌≡◌, [], length, IfOk, OnOk};
ghost use Rattle.std.specs.Option.{option_copied};
ghost use Rattle.cmap_tokens.specs.TokenSeen.{piece_seen, token_seen};
ghost use Rattle.cmap_tokens.specs.TokensLeft.{start_of};
ghost use Rattle.cmap_values.specs.DeclarationsSeen.{lists_seen};
ghost use Rattle.cmap_values.specs.Faults.{Ascend};
ghost use Rattle.cmap_values.specs.Files as files;
ghost use Rattle.cmap_values.specs.FilesSeen.{file_seen};
ghost use Rattle.cmap_values.specs.MetadataSeen.{metadata_seen};
ghost use Rattle.cmap_values.specs.Only.{HoldsOfNone, IsOnly};
ghost use Rattle.cmap_text.specs.FaultyTexts.{SalvagesFile, SalvagesNoOther};
ghost use Rattle.cmap_text.specs.FirstFaults.{BeginsRefused, KeepsFronts};
ghost use Rattle.cmap_text.specs.Salvage as salvage;
ghost use Rattle.cmap_text.specs.Salvage.{nothing_salvaged};
ghost use Rattle.cmap_text.specs.SalvageSeen.{entry_seen, found_seen, rest_seen, state_seen};
ghost use Rattle.cmap_text.specs.Standing.{AreDeclared};
ghost use Rattle.cmap_text.specs.TextFiles.{IsTextFile};
ghost use Rattle.cmap_text.specs.TextSeen.{key_name, section_seen, values_seen};

mod entries;
mod known_words;
mod lists;
mod pieces;
mod rows;
mod states;

use self::pieces::{Class, class_of, fault_of, fault_offset, is_stray, own_fault};
use self::rows::{Row, are_rows, parts_on, rows_at, rows_of};
use self::states::{AtFault, Entry, State};
use crate::items::Said;
use crate::keys::Key;
use crate::sections::Section;
use crate::tokens::{Decoder, is_executable, literal_name};
use cmap_tokens::token::{Piece, PieceReader, Token};
use cmap_values::fault::{Reason, Stop};
use cmap_values::file::{File, Salvaged};
use cmap_values::metadata::Metadata;
use std::alloc::{AllocError, Global};

/// Reads the content of a text apart from its faults, and the faults.
///
/// It fails only if memory runs out.
pub fn salvage_text<'d>(alloc: Global, text: &'d [u8]) -> Result<Salvaged<'d>, AllocError>
    ensures says { IfOk result
        (λ found. SalvagesFile text.now (file_seen found.file) found.faults.items) }

    // The text has no other content, and no other faults.
    ensures only { IfOk result
        (λ found. SalvagesNoOther text.now (file_seen found.file) found.faults.items) }

    // If the text is a file, the answer is exactly this file, without faults.
    ensures file { IfOk result (λ found. (file : files.File) → IsTextFile text.now file
        → (file_seen found.file ≡ file) × (found.faults.items ≡ [])) }

    // If the text isn't a file, its first fault is the fault that `read_text` reports, or perhaps an earlier fault
    // if the text is in rows.
    ensures first { IfOk result (λ found. HoldsOfNone (IsTextFile text.now)
        → BeginsRefused text.now found.faults.items) }

    // The content before the first fault comes first in the answer.
    ensures kept { IfOk result (λ found. KeepsFronts text.now found.faults.items
        (lists_seen found.file.lists) (file_seen found.file).uses) }

    // Each declaration stands in the text, at an entry of its own in a section that is open there.
    ensures declared { IfOk result (λ found. AreDeclared text.now (lists_seen found.file.lists)) }

    // The faults are in order, and in the text.
    ensures ascend { IfOk result (λ found. Ascend 0 found.faults.items (length text.now)) }
{
    let found = Found::of(alloc, text)?;
    let metadata = found.said.values.metadata(alloc)?;
    Ok(Salvaged {
        file: File {
            metadata,
            lists: found.said.lists,
            uses: found.said.uses,
        },
        faults: found.faults,
    })
}

/// The content and the faults that are found in the pieces of a text so far.
#[derive(Drop)]
struct Found<'d> {
    said: Said<'d>,
    faults: Vec<Stop>,
    decoder: Decoder,
}

impl<'d> Found<'d> {
    fn new(alloc: Global) -> Self
        ensures { found_seen result ≡ nothing_salvaged }
    {
        Found {
            said: Said::new(alloc),
            faults: Vec::new(alloc),
            decoder: Decoder::new(alloc),
        }
    }

    /// The content and the faults of a text. The text is read once more, in rows, if it has a fault and its lines
    /// are rows.
    fn of(alloc: Global, text: &'d [u8]) -> Result<Self, AllocError>
        ensures { IfOk result (λ found. found_seen found ≡ salvage.salvaged text.now) }
    {
        let found = Found::first(alloc, text)?;
        if found.faults.is_empty() {
            return Ok(found);
        }
        let rows = rows_of(alloc, text)?;
        if are_rows(&rows) {
            Found::in_rows(alloc, text, &rows)
        } else {
            Ok(found)
        }
    }

    /// Reads all the pieces of a text.
    fn first(alloc: Global, text: &'d [u8]) -> Result<Self, AllocError>
        ensures { IfOk result (λ found. found_seen found ≡ salvage.first_read text.now) }
    {
        let mut found = Found::new(alloc);
        let mut reader = PieceReader::new(alloc, text);
        let mut state = State::Item;
        while let Some(piece) = reader.next_piece()? {
            state = found.take(&piece, state)?;
        }
        found.finish(text.len(), state)?;
        Ok(found)
    }

    /// Reads all the pieces of a text whose lines hold these parts.
    fn in_rows(alloc: Global, text: &'d [u8], rows: &[Row]) -> Result<Self, AllocError>
        ensures { IfOk result (λ found. found_seen found ≡ salvage.read_in_rows rows.now text.now) }
    {
        let mut found = Found::new(alloc);
        let mut reader = PieceReader::new(alloc, text);
        let mut rows = rows;
        let mut state = State::Item;
        while let Some(piece) = reader.next_piece()? {
            rows = rows_at(rows, &piece);
            state = found.take_in_row(&piece, state, parts_on(rows))?;
        }
        found.finish(text.len(), state)?;
        Ok(found)
    }

    /// Takes a piece on a line with this number of parts.
    fn take_in_row(
        &mut self,
        piece: &Piece<'d>,
        state: State,
        parts: u8,
    ) -> Result<State, AllocError>
        ensures { IfOk result (λ then. (state_seen then, found_seen self.new)
            ≡ salvage.take_in_row parts (state_seen state, found_seen self.old) (piece_seen piece.now)) }
    {
        let state = if piece.begins_line {
            self.begin_line(piece, state, parts)?
        } else {
            state
        };
        match state {
            State::Entry(entry) => self.take_unless_stray(piece, entry),
            _ => self.take(piece, state),
        }
    }

    /// Begins a line with this number of parts at a piece. The piece begins the next entry too, unless the line has
    /// exactly the parts that the entry lacks.
    fn begin_line(
        &mut self,
        piece: &Piece<'d>,
        state: State,
        parts: u8,
    ) -> Result<State, AllocError>
        ensures { IfOk result (λ then. (state_seen then, found_seen self.new)
            ≡ salvage.begin_line parts (state_seen state, found_seen self.old) (piece_seen piece.now)) }
    {
        match state {
            State::Entry(entry) => self.end_short(piece, entry, parts),
            State::AtFault(rest) => Ok(State::entry(rest.section)),
            State::PassingLine(section) => Ok(State::entry(section)),
            _ => Ok(state),
        }
    }

    /// Ends an entry if it is short. The piece begins a line with this number of parts.
    fn end_short(&mut self, piece: &Piece<'d>, entry: Entry, parts: u8) -> Result<State, AllocError>
        ensures { IfOk result (λ then. (state_seen then, found_seen self.new)
            ≡ salvage.begin_line parts (salvage.in_entry (entry_seen entry), found_seen self.old) (piece_seen piece.now)) }
    {
        if !entry.is_short(piece, parts) {
            return Ok(State::Entry(entry));
        }
        self.faults.push(Stop {
            offset: fault_offset(piece),
            reason: entry.missing(),
        })?;
        Ok(State::entry(entry.section))
    }

    /// Takes a piece of an entry. An unknown name fills no place.
    fn take_unless_stray(&mut self, piece: &Piece<'d>, entry: Entry) -> Result<State, AllocError>
        ensures { IfOk result (λ then. (state_seen then, found_seen self.new)
            ≡ salvage.take_unless_stray (salvage.in_entry (entry_seen entry), found_seen self.old) (piece_seen piece.now)) }
    {
        if !is_stray(piece) {
            return self.take_in_entry(piece, entry);
        }
        self.faults.push(fault_of(piece, entry.missing()))?;
        Ok(State::Entry(entry.with_piece(piece)))
    }

    /// Takes a piece, and gives the state after it.
    fn take(&mut self, piece: &Piece<'d>, state: State) -> Result<State, AllocError>
        ensures { IfOk result (λ then. (state_seen then, found_seen self.new)
            ≡ salvage.take_piece (state_seen state, found_seen self.old) (piece_seen piece.now)) }
    {
        match state {
            State::Item => self.take_item(piece),
            State::Value(key) => self.take_value(piece, key),
            State::Entry(entry) => self.take_in_entry(piece, entry),
            State::AtFault(rest) => self.pass_in_entry(piece, rest),
            State::PassingList(rest) => self.pass_in_list(piece, rest),
            State::PassingLine(section) => self.pass_in_line(piece, section),
            State::List(list) => self.take_in_list(piece, list),
        }
    }

    /// Ends the reading, at the end of a text of `len` bytes.
    fn finish(&mut self, len: usize, state: State) -> Result<(), AllocError>
        ensures { OnOk result (found_seen self.new ≡ salvage.finished len (state_seen state, found_seen self.old)) }
    {
        match state {
            State::Item => {}
            State::Value(key) => self.said.values.set(key, None),
            _ => self.faults.push(Stop {
                offset: len,
                reason: Reason::EndWithinSection,
            })?,
        }
        Ok(())
    }

    /// Takes a piece with which an item begins.
    fn take_item(&mut self, piece: &Piece<'d>) -> Result<State, AllocError>
        ensures { IfOk result (λ state. (state_seen state, found_seen self.new)
            ≡ salvage.take_item (found_seen self.old) (piece_seen piece.now)) }
    {
        match &piece.token {
            Ok(token) => self.begin_item(token, piece.end),
            Err(malformed) => {
                self.faults.push(own_fault(*malformed))?;
                Ok(State::Item)
            }
        }
    }

    /// Takes the first token of an item, which ends at this offset.
    fn begin_item(&mut self, token: &Token<'d>, end: usize) -> Result<State, AllocError>
        ensures { IfOk result (λ state. (state_seen state, found_seen self.new)
            ≡ salvage.begin_item (found_seen self.old) (token_seen token.now) end) }
    {
        let operand = self.said.operand;
        self.said.operand = literal_name(token);
        if let Some(section) = Section::opened_by(token) {
            return Ok(State::entry(section));
        }
        if is_executable(token, b"usecmap") {
            return self.take_use(operand, end);
        }
        match Key::of(token) {
            Some(key) => Ok(State::Value(key)),
            None => Ok(State::Item),
        }
    }

    /// Takes a `usecmap` that ends at this offset.
    fn take_use(&mut self, operand: Option<&'d [u8]>, end: usize) -> Result<State, AllocError>
        ensures { IfOk result (λ state. (state_seen state, found_seen self.new)
            ≡ salvage.take_use (found_seen self.old) (option_copied operand.entry) end) }
    {
        match operand {
            Some(name) => self.said.uses.push(name)?,
            None => self.faults.push(Stop {
                offset: end,
                reason: Reason::UseWithoutName,
            })?,
        }
        Ok(State::Item)
    }

    /// Takes a piece in the place of the value of a key.
    fn take_value(&mut self, piece: &Piece<'d>, key: Key) -> Result<State, AllocError>
        ensures { IfOk result (λ state. (state_seen state, found_seen self.new)
            ≡ salvage.take_value (found_seen self.old) (key_name key) (piece_seen piece.now)) }
    {
        match &piece.token {
            Ok(token) => {
                self.said.values.set(key, Some(*token));
                Ok(State::Item)
            }
            Err(malformed) => {
                self.faults.push(own_fault(*malformed))?;
                match class_of(piece) {
                    Class::Alone => Ok(State::Value(key)),
                    _ => Ok(State::Item),
                }
            }
        }
    }

    /// Takes a piece of an entry at fault, from the piece at fault on.
    fn pass_in_entry(&mut self, piece: &Piece<'d>, rest: AtFault) -> Result<State, AllocError>
        ensures { IfOk result (λ state. (state_seen state, found_seen self.new)
            ≡ salvage.pass_in_entry (found_seen self.old) (rest_seen rest) (piece_seen piece.now)) }
    {
        match class_of(piece) {
            Class::Word => self.take_item(piece),
            Class::Alone => Ok(State::AtFault(rest)),
            Class::OpenBracket => Ok(State::PassingList(rest)),
            Class::CloseBracket => Ok(rest.after_entry()),
            Class::Part => Ok(rest.after_part()),
        }
    }

    /// Takes a piece of a list of an entry at fault.
    fn pass_in_list(&mut self, piece: &Piece<'d>, rest: AtFault) -> Result<State, AllocError>
        ensures { IfOk result (λ state. (state_seen state, found_seen self.new)
            ≡ salvage.pass_in_list (found_seen self.old) (rest_seen rest) (piece_seen piece.now)) }
    {
        match class_of(piece) {
            Class::Word => self.take_item(piece),
            Class::CloseBracket => Ok(rest.after_entry()),
            _ => Ok(State::PassingList(rest)),
        }
    }

    /// Takes a piece after an entry at fault that begins a line. The next entry begins with the next line.
    fn pass_in_line(&mut self, piece: &Piece<'d>, section: Section) -> Result<State, AllocError>
        ensures { IfOk result (λ state. (state_seen state, found_seen self.new)
            ≡ salvage.pass_in_line (found_seen self.old) (section_seen section) (piece_seen piece.now)) }
    {
        if piece.begins_line {
            return self.take_in_entry(piece, Entry::new(section));
        }
        match class_of(piece) {
            Class::Word => self.take_item(piece),
            Class::OpenBracket => Ok(State::PassingList(AtFault::in_line(section))),
            _ => Ok(State::PassingLine(section)),
        }
    }
}
