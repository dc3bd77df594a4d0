//! The entries of sections. The calls here read an entry, or the rest of an entry after its first code,
//! and add what the entry declares.

ghost use Rattle.std.specs.Prelude.{◌≡◌, ℕ, ◌+◌, ◌-◌, List, Ok, Some, IfErr, IfOk, MatchOption, OnOk};
ghost use Rattle.cmap_values.specs.CodeLengths.{length_of};
ghost use Rattle.cmap_values.specs.DeclarationsSeen.{cid_entry_seen, lists_seen};
ghost use Rattle.cmap_text.specs.EntriesSeen.{AddsDeclarations, AddsEntryIf, AddsTexts, ReadsAs, RefusesAt, WhereRefused};
ghost use Rattle.cmap_values.specs.Outcomes.{Outcome};
ghost use Rattle.cmap_values.specs.Files.{lists_of};
ghost use Rattle.cmap_values.specs.Files as declared;
ghost use Rattle.cmap_values.specs.ListsAppended.{append_lists};
ghost use Rattle.cmap_tokens.specs.TokenSeen.{token_seen};
ghost use Rattle.cmap_values.specs.declared.fault.Fault.TheVariants.{Memory};
ghost use Rattle.cmap_values.specs.declared.fault.Reason.TheVariants.{TextExpected};
ghost use Rattle.cmap_values.specs.UnitsSeen.{units_seen};
ghost use Rattle.cmap_text.specs.TextFiles as files;
ghost use Rattle.cmap_text.specs.TextSeen.{code_seen, extent_seen, kind_seen};
ghost use Rattle.cmap_text.specs.TextReading as reading;
ghost use Rattle.cmap_text.specs.TextReading.{body_in, cids_after, code_in, entry_after, filed, list_in, list_or_destination, text_of, texts_from};
ghost use Rattle.cmap_text.specs.TokenParsers.{followed_by, or_wrong, run, token_in};
ghost use Rattle.cmap_tokens.specs.Tokens.{String};
ghost use Rattle.cmap_tokens.specs.TokensLeft.{Left};

use crate::tokens::{Code, TokenReader, is_executable};
use crate::wrong_token::{WrongToken, wrong};
use cmap_tokens::token::Token;
use cmap_values::code_length::CodeLength;
use cmap_values::declarations::{BfRange, CidRange, Codespace, Lists};
use cmap_values::fault::{Fault, Reason};
use cmap_values::names::Cid;
use cmap_values::range::Range;
use cmap_values::units::Units;

/// The kind of CIDs that an entry declares: the CIDs of its codes, or the fallback CID of codes that
/// have no other.
#[derive(Clone, Copy)]
pub enum CidKind {
    Cid,
    Notdef,
}

/// Whether an entry is for the codes of a range or for a single code.
#[derive(Clone, Copy)]
pub enum Extent {
    Range,
    Single,
}

/// Reads the rest of a codespace range, a code of the same length, and adds the range.
pub(crate) fn add_codespace_range(
    reader: &mut TokenReader<'_>,
    low: Code,
    lists: &mut Lists,
) -> Result<(), Fault<WrongToken>>
    ensures adds { AddsDeclarations (entry_after files.codespace_range (code_seen low)) reader.old
        lists.old lists.new reader.new result }
    ensures stays { WhereRefused (lists_seen lists.new ≡ lists_seen lists.old) result }
{
    let high = reader.next_code()?;
    if low.len != high.len {
        return Err(wrong(Reason::UnequalLengths));
    }
    lists.add_codespace(Codespace {
        len: low.len,
        low: low.number,
        high: high.number,
    })?;
    Ok(())
}

/// Reads the rest of an entry of CIDs or of notdef CIDs, and adds its declaration.
#[inline(always)]
pub(crate) fn add_cids(
    reader: &mut TokenReader<'_>,
    start: Code,
    kind: CidKind,
    extent: Extent,
    lists: &mut Lists,
) -> Result<(), Fault<WrongToken>>
    ensures adds { AddsDeclarations
        (entry_after (files.cids (kind_seen kind) (extent_seen extent)) (code_seen start))
        reader.old lists.old lists.new reader.new result }
    ensures stays { WhereRefused (lists_seen lists.new ≡ lists_seen lists.old) result }
{
    let filed = read_cids(reader, start, extent)?;
    match kind {
        CidKind::Cid => lists.add_cid(filed.len, filed.range)?,
        CidKind::Notdef => lists.add_notdef(filed.len, filed.range)?,
    }
    Ok(())
}

/// Reads an entry of CIDs whose codes have two bytes, if the whole entry has the most common form, and
/// adds its declaration. For any other tokens the answer is `false` and the reader stays in place.
#[inline(always)]
pub(crate) fn add_plain_cids(
    reader: &mut TokenReader<'_>,
    extent: Extent,
    lists: &mut Lists,
) -> Result<bool, Fault<WrongToken>>
    ensures adds { IfOk result (AddsEntryIf (files.cids files.mapped (extent_seen extent))
        reader.old lists.old lists.new reader.new) }
    ensures fails { IfErr result (λ fault. fault ≡ Memory) }
{
    let Some(filed) = plain_cids(reader, extent) else {
        return Ok(false);
    };
    lists.add_cid(filed.len, filed.range)?;
    Ok(true)
}

/// Reads a single code and its text, if both have two bytes and the most common form, and adds the text.
/// For any other tokens the answer is `false` and the reader stays in place.
#[inline(always)]
pub(crate) fn add_plain_text(
    reader: &mut TokenReader<'_>,
    lists: &mut Lists,
) -> Result<bool, Fault<WrongToken>>
    ensures adds { IfOk result (AddsEntryIf files.bf_char reader.old lists.old lists.new reader.new) }
    ensures fails { IfErr result (λ fault. fault ≡ Memory) }
{
    let Some((code, unit)) = reader.two_byte_code_and_unit() else {
        return Ok(false);
    };
    add_text(lists, code.number, code.number, Units::One([unit]))?;
    Ok(true)
}

/// Reads a single code and its text, if the code has two bytes and the most common form, and adds the
/// text. For any other code or token the answer is `false` and the reader stays in place.
#[inline(never)]
pub(crate) fn add_longer_text(
    reader: &mut TokenReader<'_>,
    lists: &mut Lists,
) -> Result<bool, Fault<WrongToken>>
    ensures { Outcome (AddsEntryIf files.bf_char reader.old lists.old lists.new reader.new)
        (RefusesAt reader.new (run (body_in files.bf_char (lists_seen lists.old)) reader.old)) result }
{
    let Some(code) = reader.two_byte_code() else {
        return Ok(false);
    };
    match reader.longer_destination() {
        Some(units) => add_text(lists, code.number, code.number, units)?,
        None => add_bf_char(reader, code, lists)?,
    }
    Ok(true)
}

/// Reads the destination of a single code, and adds it.
#[inline(always)]
pub(crate) fn add_bf_char(
    reader: &mut TokenReader<'_>,
    code: Code,
    lists: &mut Lists,
) -> Result<(), Fault<WrongToken>>
    ensures adds { AddsDeclarations (entry_after files.bf_char (code_seen code)) reader.old
        lists.old lists.new reader.new result }
    ensures stays { WhereRefused (lists_seen lists.new ≡ lists_seen lists.old) result }
{
    let units = reader.next_destination()?;
    add_text(lists, code.number, code.number, units)
}

/// Reads the rest of a range of texts, its last code and one destination or a list of destinations, and
/// adds the texts.
pub(crate) fn add_bf_range(
    reader: &mut TokenReader<'_>,
    start: Code,
    lists: &mut Lists,
) -> Result<(), Fault<WrongToken>>
    ensures adds { AddsDeclarations (entry_after files.bf_range (code_seen start)) reader.old
        lists.old lists.new reader.new result }
    ensures stays { WhereRefused (lists_seen lists.new ≡ lists_seen lists.old) result }
{
    let end = reader.next_code()?;
    match reader.plain_destination() {
        Some(units) => add_text(lists, start.number, end.number, units),
        None => {
            let token = reader.required_token()?;
            add_texts(reader, &token, start.number, end.number, lists)
        }
    }
}

/// Adds the texts of the codes from `start` to `end`: the destination that the token is, or the
/// destinations of the list that the token opens.
fn add_texts(
    reader: &mut TokenReader<'_>,
    token: &Token<'_>,
    start: u32,
    end: u32,
    lists: &mut Lists,
) -> Result<(), Fault<WrongToken>>
    ensures adds { ReadsAs (followed_by (λ found. run (texts_from start end (lists_seen lists.old) found))
        (or_wrong TextExpected (list_or_destination (token_seen token.now)) (token_seen token.now) reader.old))
        (λ done. (lists_seen lists.new, reader.new)) reader.new result }
    ensures stays { WhereRefused (lists_seen lists.new ≡ lists_seen lists.old) result }
{
    if is_executable(token, b"[") {
        return add_list(reader, start, end, lists);
    }
    let units = reader.destination(token)?;
    add_text(lists, start, end, units)
}

/// Reads one destination for each code from `start` to `end`, and the closing bracket, and adds the
/// destinations. A list that is refused adds nothing.
fn add_list(
    reader: &mut TokenReader<'_>,
    start: u32,
    end: u32,
    lists: &mut Lists,
) -> Result<(), Fault<WrongToken>>
    ensures adds { AddsDeclarations (list_in (end + 1 - start) start) reader.old
        lists.old lists.new reader.new result }
    ensures stays { WhereRefused (lists_seen lists.new ≡ lists_seen lists.old) result }
{
    let count = lists.bfs.len();
    match add_destinations(reader, start, end, lists) {
        Ok(()) => Ok(()),
        Err(Fault::Memory) => Err(Fault::Memory),
        Err(Fault::Refused(wrong)) => {
            lists.bfs.truncate(count);
            Err(Fault::Refused(wrong))
        }
    }
}

/// Adds the destinations of a list. If a token is wrong, the destinations before the token are added all
/// the same.
fn add_destinations(
    reader: &mut TokenReader<'_>,
    start: u32,
    end: u32,
    lists: &mut Lists,
) -> Result<(), Fault<WrongToken>>
    ensures adds { AddsDeclarations (list_in (end + 1 - start) start) reader.old
        lists.old lists.new reader.new result }
    ensures texts { WhereRefused (AddsTexts lists.old lists.new) result }
{
    for code in u64::from(start)..u64::from(end) + 1 {
        let units = reader.next_destination()?;
        add_text(lists, code as u32, code as u32, units)?;
    }
    pass_closing_bracket(reader)
}

/// Passes over the bracket that closes a list.
fn pass_closing_bracket(reader: &mut TokenReader<'_>) -> Result<(), Fault<WrongToken>>
    ensures { (start : ℕ) (lists : declared.Lists) → ReadsAs (run (list_in 0 start lists) reader.old) (λ done. (lists, reader.new)) reader.new result }
{
    let token = reader.required_token()?;
    if is_executable(&token, b"]") {
        Ok(())
    } else {
        Err(wrong(Reason::BracketExpected))
    }
}

/// Adds a declaration of texts for the codes from `start` to `end`, with the units of the text of the
/// code `start`.
#[inline(always)]
fn add_text(lists: &mut Lists, start: u32, end: u32, units: Units) -> Result<(), Fault<WrongToken>>
    ensures adds { OnOk result (lists_seen lists.new ≡ append_lists (lists_seen lists.old)
        (lists_of (text_of start end (units_seen units)))) }
    ensures fails { IfErr result (λ fault. fault ≡ Memory) }
{
    let range = Range { start, end };
    lists.add_bf(BfRange { range, units })?;
    Ok(())
}

/// A declaration of CIDs, and the length of codes by which it is filed.
#[derive(Drop)]
struct Filed {
    len: CodeLength,
    range: CidRange,
}

/// The declaration of an entry of CIDs whose codes have two bytes, if the whole entry has the most
/// common form. For any other tokens the answer is `None` and the reader stays in place.
#[inline(always)]
fn plain_cids(reader: &mut TokenReader<'_>, extent: Extent) -> Option<Filed>
    ensures { MatchOption result (reader.new ≡ reader.old) (λ filed. (piece : List ℕ) × (start : reading.Code) × (next : Left)
        × (token_in reader.old ≡ Ok (String piece, next))
        × (code_in (String piece) ≡ Some start)
        × (run (cids_after (extent_seen extent) start) next ≡ Ok ((length_of filed.len, cid_entry_seen filed.range), reader.new))) }
{
    match extent {
        Extent::Range => {
            let (start, end, cid) = reader.two_byte_range_and_cid()?;
            Some(filed_range(start, end, cid))
        }
        Extent::Single => {
            let (code, cid) = reader.two_byte_code_and_cid()?;
            Some(filed_range(code, code, cid))
        }
    }
}

/// The declaration that the codes from `start` to `end` have CIDs from `cid` on, filed by the length of
/// `start`.
#[inline(always)]
fn filed_range(start: Code, end: Code, cid: Cid) -> Filed
    ensures { (length_of result.len, cid_entry_seen result.range)
        ≡ filed (code_seen start) (code_seen end).number cid }
{
    let range = Range {
        start: start.number,
        end: end.number,
    };
    Filed {
        len: start.len,
        range: CidRange { range, cid },
    }
}

/// Reads the rest of an entry of CIDs after its first code: the last code and the CID of a range, or the
/// CID of a single code. The declaration is filed by the length of the first code.
#[inline(always)]
fn read_cids(
    reader: &mut TokenReader<'_>,
    start: Code,
    extent: Extent,
) -> Result<Filed, Fault<WrongToken>>
    ensures { ReadsAs (run (cids_after (extent_seen extent) (code_seen start)) reader.old)
        (λ filed. ((length_of filed.len, cid_entry_seen filed.range), reader.new)) reader.new result }
{
    let end = match extent {
        Extent::Range => reader.next_code()?,
        Extent::Single => start,
    };
    let cid = reader.next_cid()?;
    Ok(filed_range(start, end, cid))
}
