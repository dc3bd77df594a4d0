//! The table of `cmap make`: the lines that `cmap list` prints for one layer.

mod codes;
mod quoted;

use self::codes::{CodePair, code_pair};
use self::quoted::unquoted;
use crate::collection::spelled_collection;
use crate::shown_name::name_bytes;
use cmap_io::count::Count;
use cmap_queries::arguments::decimal;
use cmap_text_writer::TextLengths;
use cmap_values::character_collection::CharacterCollection;
use cmap_values::code_length::CodeLength;
use cmap_values::declarations::{BfRange, CidRange, Codespace, Lists};
use cmap_values::fault::Fault;
use cmap_values::metadata::Metadata;
use cmap_values::units::Units;
use cmap_values::writing_mode::WritingMode;
use std::alloc::Global;

/// An invalid line of a table. Lines are counted from 1.
#[derive(Clone, Copy, Debug)]
pub struct TableFault {
    pub line: usize,
    pub wrong: WrongLine,
}

/// What is wrong with a line of a table.
#[derive(Clone, Copy, Debug)]
pub enum WrongLine {
    /// The line doesn't begin with the word for a declaration.
    Kind,
    /// The line begins the lines of a further layer.
    Layer,
    /// The line has no first and last code of one to four bytes.
    Codes,
    /// The codes of a codespace range have several lengths.
    Lengths,
    /// The line has no CID of 32 bits after the codes, or more than a CID.
    Cid,
    /// The line has no text between quotation marks after the codes, or more than a text.
    Text,
    /// More follows the codes of a codespace range.
    Codespace,
    /// A comment of `list` has no name.
    Name,
    /// A comment of `list` has no collection.
    Collection,
    /// A comment of `list` has no writing mode.
    WritingMode,
}

impl WrongLine {
    /// What is wrong, in words.
    pub fn words(self) -> &'static str {
        match self {
            WrongLine::Kind => "neither codespace, cid, notdef nor text",
            WrongLine::Layer =>
                "a table can have only one layer; cmap list --effective prints all layers as one",
            WrongLine::Codes => "no first and last code, as <8140> <817E>",
            WrongLine::Lengths => "the codes of a codespace range have several lengths",
            WrongLine::Cid => "a CID was expected",
            WrongLine::Text => "a text between quotation marks was expected",
            WrongLine::Codespace => "nothing more was expected",
            WrongLine::Name => "a name was expected",
            WrongLine::Collection => "a collection was expected, as Adobe-Japan1-6",
            WrongLine::WritingMode => "horizontal or vertical was expected",
        }
    }
}

/// The declarations of a table.
#[derive(Drop)]
pub struct Declared {
    pub lists: Lists,
    /// The metadata in the comments that `cmap list` prints.
    pub metadata: Metadata,
    text_codes: TextCodes,
}

/// The lengths of the codes of texts in a table.
#[derive(Clone, Copy)]
enum TextCodes {
    /// No code has a text.
    Absent,
    /// All codes of texts have this length.
    Same(CodeLength),
    /// The codes of texts have several lengths.
    Several,
}

impl Declared {
    /// The declarations of an empty table.
    fn new(alloc: Global) -> Declared {
        Declared {
            lists: Lists::new(alloc),
            metadata: Metadata {
                character_collection: None,
                name: None,
                writing_mode: None,
            },
            text_codes: TextCodes::Absent,
        }
    }

    /// The lengths with which the codes of texts are written: the length in the table, if all have the same length
    /// there.
    pub fn text_lengths(&self) -> TextLengths {
        match self.text_codes {
            TextCodes::Same(len) => TextLengths::same(len),
            TextCodes::Absent | TextCodes::Several => TextLengths::by(&self.lists.spaces),
        }
    }

    /// Records the length of the codes of a text declaration.
    fn add_text_length(&mut self, len: CodeLength) {
        let before = self.text_codes;
        self.text_codes = match before {
            TextCodes::Absent => TextCodes::Same(len),
            TextCodes::Same(other) if other == len => TextCodes::Same(len),
            TextCodes::Same(_) | TextCodes::Several => TextCodes::Several,
        };
    }
}

/// The declarations of a table. Empty lines are ignored, and so are comments that `cmap list` doesn't print for
/// metadata.
pub fn declared_by(alloc: Global, table: &str) -> Result<Declared, Fault<TableFault>> {
    let mut declared = Declared::new(alloc);
    let mut number = Count::of(0);
    for line in table.lines() {
        number.add_one();
        if let Err(fault) = add_line(alloc, &mut declared, line.trim()) {
            return Err(at_line(number, fault));
        }
    }
    Ok(declared)
}

/// The fault of the line with this number.
fn at_line(line: Count, fault: Fault<WrongLine>) -> Fault<TableFault> {
    match fault {
        Fault::Refused(wrong) => Fault::Refused(TableFault {
            line: line.get(),
            wrong,
        }),
        Fault::Memory => Fault::Memory,
    }
}

/// Adds the declaration of a line.
fn add_line(alloc: Global, declared: &mut Declared, line: &str) -> Result<(), Fault<WrongLine>> {
    if line.is_empty() {
        return Ok(());
    }
    if line.starts_with('#') {
        return add_comment(alloc, &mut declared.metadata, line);
    }
    let Some((kind, rest)) = line.split_once(' ') else {
        return Err(Fault::Refused(WrongLine::Kind));
    };
    match kind {
        "codespace" => add_codespace(&mut declared.lists, rest),
        "cid" => add_cids(&mut declared.lists, rest),
        "notdef" => add_notdefs(&mut declared.lists, rest),
        "text" => add_texts(alloc, declared, rest),
        "layer" => Err(Fault::Refused(WrongLine::Layer)),
        _ => Err(Fault::Refused(WrongLine::Kind)),
    }
}

/// Adds the metadata in a comment, in the form that `cmap list` prints.
fn add_comment(alloc: Global, metadata: &mut Metadata, line: &str) -> Result<(), Fault<WrongLine>> {
    let Some((key, value)) = line.split_once(": ") else {
        return Ok(());
    };
    match key {
        "# name" => metadata.name = Some(name_of(alloc, value)?),
        "# collection" => metadata.character_collection = Some(collection_of(alloc, value)?),
        "# writing mode" => metadata.writing_mode = Some(mode_of(value)?),
        _ => {}
    }
    Ok(())
}

fn name_of(alloc: Global, shown: &str) -> Result<Vec<u8>, Fault<WrongLine>> {
    name_bytes(alloc, shown)?.ok_or(Fault::Refused(WrongLine::Name))
}

fn collection_of(alloc: Global, spelled: &str) -> Result<CharacterCollection, Fault<WrongLine>> {
    spelled_collection(alloc, spelled)?.ok_or(Fault::Refused(WrongLine::Collection))
}

fn mode_of(word: &str) -> Result<WritingMode, Fault<WrongLine>> {
    match word {
        "horizontal" => Ok(WritingMode::Horizontal),
        "vertical" => Ok(WritingMode::Vertical),
        _ => Err(Fault::Refused(WrongLine::WritingMode)),
    }
}

/// Adds a codespace range, such as `<8140> <9FFC>`.
fn add_codespace(lists: &mut Lists, line: &str) -> Result<(), Fault<WrongLine>> {
    let (CodePair { first, last }, rest) = pair_and_rest(line)?;
    if first.len != last.len {
        return Err(Fault::Refused(WrongLine::Lengths));
    }
    if !rest.is_empty() {
        return Err(Fault::Refused(WrongLine::Codespace));
    }
    lists.add_codespace(Codespace {
        len: first.len,
        low: first.number,
        high: last.number,
    })?;
    Ok(())
}

/// Adds a declaration of CIDs, such as `<8140> <817E> 633`.
fn add_cids(lists: &mut Lists, line: &str) -> Result<(), Fault<WrongLine>> {
    let (codes, rest) = pair_and_rest(line)?;
    let cid = cid_of(rest)?;
    let range = codes.range();
    lists.add_cid(codes.first.len, CidRange { range, cid })?;
    Ok(())
}

/// Adds a notdef declaration, such as `<00> <1F> 231`.
fn add_notdefs(lists: &mut Lists, line: &str) -> Result<(), Fault<WrongLine>> {
    let (codes, rest) = pair_and_rest(line)?;
    let cid = cid_of(rest)?;
    let range = codes.range();
    lists.add_notdef(codes.first.len, CidRange { range, cid })?;
    Ok(())
}

/// Adds a declaration of texts, such as `<41> <5A> "A"`.
fn add_texts(alloc: Global, declared: &mut Declared, line: &str) -> Result<(), Fault<WrongLine>> {
    let (codes, rest) = pair_and_rest(line)?;
    let Some(text) = unquoted(alloc, rest)? else {
        return Err(Fault::Refused(WrongLine::Text));
    };
    let units = Units::from_text(alloc, text.as_str())?;
    let range = codes.range();
    declared.add_text_length(codes.first.len);
    declared.lists.add_bf(BfRange { range, units })?;
    Ok(())
}

/// The two codes at the start of the rest of a line, and the text after them.
fn pair_and_rest(line: &str) -> Result<(CodePair, &str), Fault<WrongLine>> {
    code_pair(line).ok_or(Fault::Refused(WrongLine::Codes))
}

/// The CID that decimal digits spell.
fn cid_of(digits: &str) -> Result<u32, Fault<WrongLine>> {
    let number = decimal(digits).ok_or(Fault::Refused(WrongLine::Cid))?;
    u32::try_from(number).map_err(|_| Fault::Refused(WrongLine::Cid))
}
