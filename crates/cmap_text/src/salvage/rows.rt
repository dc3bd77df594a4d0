//! The lines of sections, and how many parts each line has.

ghost use Rattle.std.specs.Prelude.{◌≡◌, ◌∷◌, [], option_map, IfOk, OnOk};
ghost use Rattle.cmap_tokens.specs.TokenSeen.{piece_seen};
ghost use Rattle.cmap_text.specs.Rows as lines;
ghost use Rattle.cmap_text.specs.SalvageSeen.{lines_seen};
ghost use Rattle.cmap_text.specs.TextSeen.{section_seen};

use super::pieces::{Class, class_of, is_name};
use super::states::places_of;
use crate::sections::Section;
use cmap_tokens::token::{Piece, PieceReader};
use std::alloc::{AllocError, Global};

/// The parts on a line of a section.
#[derive(Clone, Copy)]
pub(super) struct Row {
    /// The number of parts; 255 stands for 255 or more.
    pub(super) parts: u8,
    /// How many places an entry of the section has; 0 for a line without parts.
    pub(super) places: u8,
}

impl Row {
    /// A line without parts.
    fn empty() -> Row
        ensures { result ≡ lines.empty_row }
    {
        Row {
            parts: 0,
            places: 0,
        }
    }

    /// The line with one more part, in this section.
    fn with_part(self, section: Section) -> Row
        ensures { result ≡ lines.with_part self (section_seen section) }
    {
        Row {
            parts: self.parts.saturating_add(1),
            places: places_of(section),
        }
    }

    /// Whether the line has as many parts as an entry has places.
    fn is_whole(&self) -> bool
        ensures { result ≡ lines.is_whole self.now }
    {
        self.parts != 0 && self.parts == self.places
    }

    /// Whether the line has parts, but more or fewer than an entry has places.
    fn is_other(&self) -> bool
        ensures { result ≡ lines.is_other self.now }
    {
        self.parts != 0 && self.parts != self.places
    }
}

/// The lines of a text, as far as its pieces are read.
#[derive(Drop)]
struct Lines {
    /// The lines before the last line.
    rows: Vec<Row>,
    /// The last line.
    row: Row,
    /// A line without parts for each line end in a list on the last line.
    inner: Vec<Row>,
    /// The section that the last known word opens.
    section: Option<Section>,
    is_in_brackets: bool,
}

impl Lines {
    fn new(alloc: Global) -> Lines
        ensures { lines_seen result ≡ lines.no_lines }
    {
        Lines {
            rows: Vec::new(alloc),
            row: Row::empty(),
            inner: Vec::new(alloc),
            section: None,
            is_in_brackets: false,
        }
    }

    /// Takes a piece, which may begin a line.
    fn take(&mut self, piece: &Piece<'_>) -> Result<(), AllocError>
        ensures { OnOk result (lines_seen self.new ≡ lines.line_taken (lines_seen self.old) (piece_seen piece.now)) }
    {
        if begins_row(piece) {
            self.begin_row(piece)?;
        }
        self.count(piece);
        Ok(())
    }

    /// Begins a line with a piece. A line end in a list begins no line, because the list is a part
    /// of its line.
    fn begin_row(&mut self, piece: &Piece<'_>) -> Result<(), AllocError>
        ensures { OnOk result (lines_seen self.new ≡ lines.row_begun (lines_seen self.old) (piece_seen piece.now)) }
    {
        if self.is_in_brackets && section_opened(piece).is_none() {
            self.inner.push(Row::empty())?;
            return Ok(());
        }
        self.end_line()
    }

    /// Ends the last line.
    fn end_line(&mut self) -> Result<(), AllocError>
        ensures { OnOk result (lines_seen self.new ≡ lines.line_ended (lines_seen self.old)) }
    {
        self.rows.push(self.row)?;
        self.rows.append(&mut self.inner)?;
        self.row = Row::empty();
        Ok(())
    }

    /// Counts a piece in its line, if it is a part of a section.
    fn count(&mut self, piece: &Piece<'_>)
        ensures { lines_seen self.new ≡ lines.counted (lines_seen self.old) (piece_seen piece.now) }
    {
        match class_of(piece) {
            Class::Word => {
                self.section = section_opened(piece);
                self.is_in_brackets = false;
            }
            Class::Alone => {}
            Class::OpenBracket => {
                self.add_part();
                self.is_in_brackets = true;
            }
            Class::CloseBracket => self.is_in_brackets = false,
            Class::Part => {
                if !is_name(piece) {
                    self.add_part();
                }
            }
        }
    }

    /// Adds a part to the line, within a section and outside brackets.
    fn add_part(&mut self)
        ensures { lines_seen self.new ≡ lines.part_added (lines_seen self.old) }
    {
        if self.is_in_brackets {
            return;
        }
        if let Some(section) = self.section {
            self.row = self.row.with_part(section);
        }
    }
}

/// The parts on each line of a text, after an empty row for the part of the text before the first
/// line.
pub(super) fn rows_of(alloc: Global, text: &[u8]) -> Result<Vec<Row>, AllocError>
    ensures { IfOk result (λ rows. rows.items ≡ lines.rows_of text.now) }
{
    let mut reader = PieceReader::new(alloc, text);
    let mut lines = Lines::new(alloc);
    while let Some(piece) = reader.next_piece()? {
        lines.take(&piece)?;
    }
    lines.end_line()?;
    Ok(lines.rows)
}

/// Whether more than half of the lines with parts have as many parts as an entry has places.
pub(super) fn are_rows(rows: &[Row]) -> bool
    ensures { result ≡ lines.are_rows rows.now }
{
    let mut whole: usize = 0;
    let mut others: usize = 0;
    for row in rows {
        if row.is_whole() {
            whole += 1;
        }
        if row.is_other() {
            others += 1;
        }
    }
    others < whole
}

/// The rows from the line of a piece on. The first of `rows` is the row of the piece before it.
pub(super) fn rows_at<'r>(rows: &'r [Row], piece: &Piece<'_>) -> &'r [Row]
    ensures { result.now ≡ lines.rows_at rows.now (piece_seen piece.now) }
{
    if begins_row(piece) {
        after_line(rows)
    } else {
        rows
    }
}

/// The rows from the next line on.
fn after_line(rows: &[Row]) -> &[Row]
    ensures { result.now ≡ lines.after_line rows.now }
{
    match rows {
        [_, rest @ ..] => rest,
        [] => rows,
    }
}

/// How many parts the first line has.
pub(super) fn parts_on(rows: &[Row]) -> u8
    ensures { result ≡ lines.parts_on rows.now }
{
    match rows {
        [row, ..] => row.parts,
        [] => 0,
    }
}

/// Whether a line begins with a piece. The opener of a section begins the first line of the
/// section.
fn begins_row(piece: &Piece<'_>) -> bool
    ensures { result ≡ lines.begins_row (piece_seen piece.now) }
{
    piece.begins_line || section_opened(piece).is_some()
}

/// The section that a piece opens.
fn section_opened(piece: &Piece<'_>) -> Option<Section>
    ensures { option_map section_seen result ≡ lines.section_opened (piece_seen piece.now) }
{
    match &piece.token {
        Ok(token) => Section::opened_by(token),
        Err(_) => None,
    }
}
