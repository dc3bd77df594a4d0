//! Sections: an opener, entries, a closer.

ghost use Rattle.std.specs.Prelude.{false, ◌≡◌, ◌≤◌, ℕ, List, Ok, Some, IfErr, IfOk, MatchOption, OnOk, length, option_map};
ghost use Rattle.cmap_tokens.specs.TokenSeen.{token_seen};
ghost use Rattle.cmap_values.specs.DeclarationsSeen.{lists_seen};
ghost use Rattle.cmap_values.specs.Outcomes.{Finds};
ghost use Rattle.cmap_values.specs.declared.fault.Fault.TheVariants.{Memory};
ghost use Rattle.cmap_text.specs.EntriesSeen.{AddsDeclarations, ReadsAs, ReadsOn, WhereRefused};
ghost use Rattle.cmap_text.specs.TextFiles as files;
ghost use Rattle.cmap_text.specs.TextReading.{body_in, closer, code_fault, code_in, code_or_closer, entry_after, opened_by, opener};
ghost use Rattle.cmap_text.specs.TextSeen.{code_seen, extent_seen, kind_seen, section_seen};
ghost use Rattle.cmap_text.specs.TokenParsers.{head_in, or_wrong, token_in};
ghost use Rattle.cmap_tokens.specs.Tokens.{Name, String};

use crate::entries::{
    CidKind, Extent, add_bf_char, add_bf_range, add_cids, add_codespace_range, add_longer_text,
    add_plain_cids, add_plain_text,
};
use crate::tokens::{Code, TokenReader, is_executable};
use crate::wrong_token::WrongToken;
use cmap_tokens::token::Token;
use cmap_values::declarations::Lists;
use cmap_values::fault::Fault;

/// The kinds of sections. Adobe Technical Notes 5014 and 5411.
#[derive(Clone, Copy)]
pub enum Section {
    Codespaces,
    Cids(CidKind, Extent),
    BfRange,
    BfChar,
}

impl Section {
    /// The section that a token opens.
    pub(crate) fn opened_by(token: &Token<'_>) -> Option<Section>
        ensures { option_map section_seen result ≡ opened_by (token_seen token.now) }
    {
        match token {
            Token::Name(name) if !name.is_literal() => Section::named(name.as_bytes()),
            _ => None,
        }
    }

    /// The section that an executable name opens. The first byte of most names shows that the name opens
    /// no section.
    fn named(name: &[u8]) -> Option<Section>
        ensures { option_map section_seen result ≡ opened_by (Name false name.now) }
    {
        match name {
            [b'b', ..] => Section::of_opener(name),
            _ => None,
        }
    }

    /// The section that an executable name opens, by all bytes of the name.
    fn of_opener(name: &[u8]) -> Option<Section>
        ensures { option_map section_seen result ≡ opened_by (Name false name.now) }
    {
        if name == b"begincidrange".as_slice() {
            Some(Section::Cids(CidKind::Cid, Extent::Range))
        } else if name == b"begincidchar".as_slice() {
            Some(Section::Cids(CidKind::Cid, Extent::Single))
        } else if name == b"beginbfrange".as_slice() {
            Some(Section::BfRange)
        } else if name == b"beginbfchar".as_slice() {
            Some(Section::BfChar)
        } else if name == b"beginnotdefrange".as_slice() {
            Some(Section::Cids(CidKind::Notdef, Extent::Range))
        } else if name == b"beginnotdefchar".as_slice() {
            Some(Section::Cids(CidKind::Notdef, Extent::Single))
        } else if name == b"begincodespacerange".as_slice() {
            Some(Section::Codespaces)
        } else {
            None
        }
    }

    /// The name that opens the section.
    pub fn opener(self) -> &'static [u8]
        ensures { result.now ≡ opener (section_seen self) }
    {
        match self {
            Section::Codespaces => b"begincodespacerange",
            Section::Cids(CidKind::Cid, Extent::Range) => b"begincidrange",
            Section::Cids(CidKind::Cid, Extent::Single) => b"begincidchar",
            Section::Cids(CidKind::Notdef, Extent::Range) => b"beginnotdefrange",
            Section::Cids(CidKind::Notdef, Extent::Single) => b"beginnotdefchar",
            Section::BfRange => b"beginbfrange",
            Section::BfChar => b"beginbfchar",
        }
    }

    /// The name that closes the section.
    pub fn closer(self) -> &'static [u8]
        ensures { result.now ≡ closer (section_seen self) }
    {
        match self {
            Section::Codespaces => b"endcodespacerange",
            Section::Cids(CidKind::Cid, Extent::Range) => b"endcidrange",
            Section::Cids(CidKind::Cid, Extent::Single) => b"endcidchar",
            Section::Cids(CidKind::Notdef, Extent::Range) => b"endnotdefrange",
            Section::Cids(CidKind::Notdef, Extent::Single) => b"endnotdefchar",
            Section::BfRange => b"endbfrange",
            Section::BfChar => b"endbfchar",
        }
    }
}

/// The section that a token opens.
pub fn opened_section(opener: &Token<'_>) -> Option<Section>
    ensures { Finds (files.Opens (token_seen opener.now)) section_seen result }
{
    Section::opened_by(opener)
}

/// Reads the entries of a section and its closer. The kinds of sections with the most entries have loops
/// of their own.
pub(crate) fn read_section(
    reader: &mut TokenReader<'_>,
    section: Section,
    lists: &mut Lists,
) -> Result<(), Fault<WrongToken>>
    ensures { AddsDeclarations (body_in (section_seen section)) reader.old
        lists.old lists.new reader.new result }
{
    match section {
        Section::Cids(kind, extent) => read_cid_section(reader, kind, extent, lists),
        Section::BfChar => read_entries(reader, Section::BfChar, lists),
        _ => read_entries(reader, section, lists),
    }
}

/// Reads the entries of a section of CIDs and its closer.
fn read_cid_section(
    reader: &mut TokenReader<'_>,
    kind: CidKind,
    extent: Extent,
    lists: &mut Lists,
) -> Result<(), Fault<WrongToken>>
    ensures { AddsDeclarations (body_in (files.cids (kind_seen kind) (extent_seen extent))) reader.old
        lists.old lists.new reader.new result }
{
    match kind {
        CidKind::Cid => match extent {
            Extent::Range => {
                read_entries(reader, Section::Cids(CidKind::Cid, Extent::Range), lists)
            }
            Extent::Single => {
                read_entries(reader, Section::Cids(CidKind::Cid, Extent::Single), lists)
            }
        },
        CidKind::Notdef => read_entries(reader, Section::Cids(CidKind::Notdef, extent), lists),
    }
}

/// Reads the entries of a section and its closer.
#[inline(always)]
fn read_entries(
    reader: &mut TokenReader<'_>,
    section: Section,
    lists: &mut Lists,
) -> Result<(), Fault<WrongToken>>
    ensures { AddsDeclarations (body_in (section_seen section)) reader.old
        lists.old lists.new reader.new result }
{
    loop {
        read_plain_entries(reader, section, lists)?;
        match next_start(reader, section) {
            Ok(Some(start)) => read_entry(reader, section, start, lists)?,
            Ok(None) => return Ok(()),
            Err(fault) => return Err(fault),
        }
    }
}

/// Reads the entries of a section that have the most common form, up to an entry of another form.
#[inline(always)]
fn read_plain_entries(
    reader: &mut TokenReader<'_>,
    section: Section,
    lists: &mut Lists,
) -> Result<(), Fault<WrongToken>>
    ensures reads { ReadsOn (body_in (section_seen section)) reader.old lists.old lists.new reader.new result }
    ensures fewer { OnOk result (length reader.new.tokens ≤ length reader.old.tokens) }
{
    if !reader.may_have_two_byte_code() {
        return Ok(());
    }
    match section {
        Section::Cids(CidKind::Cid, Extent::Range) => read_plain_cid_ranges(reader, lists),
        Section::Cids(CidKind::Cid, Extent::Single) => read_plain_single_cids(reader, lists),
        Section::BfChar => read_plain_texts(reader, lists),
        _ => Ok(()),
    }
}

/// Reads the entries of a section of ranges of CIDs that have the most common form, up to an entry of
/// another form.
#[inline(never)]
fn read_plain_cid_ranges(
    reader: &mut TokenReader<'_>,
    lists: &mut Lists,
) -> Result<(), Fault<WrongToken>>
    ensures reads { ReadsOn (body_in (files.cids files.mapped files.range)) reader.old lists.old lists.new reader.new result }
    ensures fewer { OnOk result (length reader.new.tokens ≤ length reader.old.tokens) }
{
    read_plain_cids(reader, Extent::Range, lists)
}

/// Reads the entries of a section of single CIDs that have the most common form, up to an entry of another
/// form.
#[inline(never)]
fn read_plain_single_cids(
    reader: &mut TokenReader<'_>,
    lists: &mut Lists,
) -> Result<(), Fault<WrongToken>>
    ensures reads { ReadsOn (body_in (files.cids files.mapped files.single)) reader.old lists.old lists.new reader.new result }
    ensures fewer { OnOk result (length reader.new.tokens ≤ length reader.old.tokens) }
{
    read_plain_cids(reader, Extent::Single, lists)
}

/// Reads the entries of a section of CIDs that have the most common form, up to an entry of another form.
#[inline(always)]
fn read_plain_cids(
    reader: &mut TokenReader<'_>,
    extent: Extent,
    lists: &mut Lists,
) -> Result<(), Fault<WrongToken>>
    ensures reads { ReadsOn (body_in (files.cids files.mapped (extent_seen extent))) reader.old lists.old lists.new reader.new result }
    ensures fewer { OnOk result (length reader.new.tokens ≤ length reader.old.tokens) }
{
    while add_plain_cids(reader, extent, lists)? {}
    Ok(())
}

/// Reads the entries of a section of texts of single codes that have the most common form, up to an entry
/// of another form.
#[inline(never)]
fn read_plain_texts(
    reader: &mut TokenReader<'_>,
    lists: &mut Lists,
) -> Result<(), Fault<WrongToken>>
    ensures reads { ReadsOn (body_in files.bf_char) reader.old lists.old lists.new reader.new result }
    ensures fewer { OnOk result (length reader.new.tokens ≤ length reader.old.tokens) }
{
    loop {
        read_short_texts(reader, lists)?;
        if !add_longer_text(reader, lists)? {
            return Ok(());
        }
    }
}

/// Reads the entries with texts of one unit, up to another entry.
#[inline(always)]
fn read_short_texts(
    reader: &mut TokenReader<'_>,
    lists: &mut Lists,
) -> Result<(), Fault<WrongToken>>
    ensures reads { ReadsOn (body_in files.bf_char) reader.old lists.old lists.new reader.new result }
    ensures fewer { OnOk result (length reader.new.tokens ≤ length reader.old.tokens) }
{
    while add_plain_text(reader, lists)? {}
    Ok(())
}

/// The code that the next entry of a section begins with; `None` at the closer.
#[inline(always)]
pub(crate) fn next_start(
    reader: &mut TokenReader<'_>,
    section: Section,
) -> Result<Option<Code>, Fault<WrongToken>>
    ensures { ReadsAs (head_in code_fault (code_or_closer (section_seen section)) reader.old)
        (λ start. (option_map code_seen start, reader.new)) reader.new result }
{
    if let Some(code) = plain_start(reader, section) {
        return Ok(Some(code));
    }
    match reader.required_token() {
        Ok(token) => code_or_closer(reader, &token, section),
        // With `?` the reading of a file takes up to 2 % more instructions.
        Err(fault) => Err(fault),
    }
}

/// The code that the next entry begins with, if the code has the most common form; `None` for any other
/// token. Before an entry of CIDs most codes of two bytes are read already.
#[inline(always)]
fn plain_start(reader: &mut TokenReader<'_>, section: Section) -> Option<Code>
    ensures { MatchOption result (reader.new ≡ reader.old) (λ code. (piece : List ℕ)
        × (token_in reader.old ≡ Ok (String piece, reader.new))
        × (code_in (String piece) ≡ Some (code_seen code))) }
{
    match section {
        Section::Cids(CidKind::Cid, _) => reader.short_code(),
        _ => reader.plain_code(),
    }
}

/// The code that a token is, at the start of an entry of a section; `None` for the closer of the section.
fn code_or_closer(
    reader: &mut TokenReader<'_>,
    token: &Token<'_>,
    section: Section,
) -> Result<Option<Code>, Fault<WrongToken>>
    ensures { ReadsAs (or_wrong (code_fault (token_seen token.now)) (code_or_closer (section_seen section) (token_seen token.now)) (token_seen token.now) reader.old)
        (λ start. (option_map code_seen start, reader.new)) reader.new result }
{
    if is_executable(token, section.closer()) {
        return Ok(None);
    }
    reader.code(token).map(Some)
}

/// Reads the rest of an entry after its first code, and adds what the entry declares.
#[inline(always)]
pub(crate) fn read_entry(
    reader: &mut TokenReader<'_>,
    section: Section,
    start: Code,
    lists: &mut Lists,
) -> Result<(), Fault<WrongToken>>
    ensures adds { AddsDeclarations (entry_after (section_seen section) (code_seen start)) reader.old
        lists.old lists.new reader.new result }
    ensures stays { WhereRefused (lists_seen lists.new ≡ lists_seen lists.old) result }
{
    match section {
        Section::Codespaces => add_codespace_range(reader, start, lists),
        Section::Cids(kind, extent) => add_cids(reader, start, kind, extent, lists),
        Section::BfRange => add_bf_range(reader, start, lists),
        Section::BfChar => add_bf_char(reader, start, lists),
    }
}
