//! Reading of prefix tables from bytes.

ghost use Rattle.std.specs.Prelude.{IfOk};
ghost use Rattle.cmap_binary.specs.Fronts.{FieldAt, RowOf, Then};
ghost use Rattle.cmap_binary.specs.Reader.{IsAtByte};
ghost use Rattle.cmap_binary.specs.TableFronts.{MostAt, TableAt};
ghost use Rattle.cmap_binary.specs.TableTaken.{ParsesTable};
ghost use Rattle.cmap_values.specs.CodeLengths.{IsCodeLength};
ghost use Rattle.cmap_values.specs.Outcomes.{Finds};

use super::PrefixTable;
use super::words::{count_words, search_bytes};
use crate::bits::Reader;
use crate::pieces::{take_byte, take_field, take_u16};
use std::alloc::{AllocError, Global};

/// Reads the table that comes next, with symbols of `width` bytes. If no valid table comes next,
/// the reader doesn't move.
pub(super) fn parse(
    alloc: Global,
    reader: &mut Reader<'_>,
    width: u8,
) -> Result<Option<PrefixTable>, AllocError>
    requires at_byte { IsAtByte reader.old }
    requires width { IsCodeLength width }
    ensures { ParsesTable width reader.old reader.new result }
{
    let mut text = reader.left();
    let size = text.len();
    let Some(table) = take_table(alloc, &mut text, width)? else {
        return Ok(None);
    };
    reader.skip_bytes(size - text.len());
    Ok(Some(table))
}

/// The table that the text begins with.
fn take_table(alloc: Global, text: &mut &[u8], width: u8) -> Result<Option<PrefixTable>, AllocError>
    requires { IsCodeLength width }
    ensures { IfOk result (Finds (TableAt width text.old.now) (λ table. (table, text.new.now))) }
{
    let Some(counts) = take_length_counts(alloc, text)? else {
        return Ok(None);
    };
    let Some(count) = count_words(&counts) else {
        return Ok(None);
    };
    let Some(symbols) = take_fields(alloc, text, count, width)? else {
        return Ok(None);
    };
    let known = search_bytes(alloc, &counts, &symbols)?;
    Ok(Some(PrefixTable {
        counts,
        symbols,
        known,
    }))
}

/// The number of words of each length.
fn take_length_counts(alloc: Global, text: &mut &[u8]) -> Result<Option<Vec<u32>>, AllocError>
    ensures { IfOk result
        (Finds (Then (MostAt text.old.now) (RowOf (FieldAt 2))) (λ counts. (counts.items, text.new.now))) }
{
    let Some(most) = take_most(text) else {
        return Ok(None);
    };
    take_fields(alloc, text, most, 2)
}

/// The number of lengths that are counted: none if the table has no symbols.
fn take_most(text: &mut &[u8]) -> Option<usize>
    ensures { Finds (MostAt text.old.now) (λ most. (most, text.new.now)) result }
{
    let filled = take_u16(text)?;
    let most = take_byte(text)?;
    Some(if filled == 0 { 0 } else { usize::from(most) })
}

/// `count` numbers of `width` bytes each.
fn take_fields(
    alloc: Global,
    text: &mut &[u8],
    count: usize,
    width: u8,
) -> Result<Option<Vec<u32>>, AllocError>
    requires { IsCodeLength width }
    ensures { IfOk result (Finds (RowOf (FieldAt width) count text.old.now)
        (λ numbers. (numbers.items, text.new.now))) }
{
    let mut numbers = Vec::new(alloc);
    for _ in 0..count {
        let Some(number) = take_field(text, width) else {
            return Ok(None);
        };
        numbers.push(number)?;
    }
    Ok(Some(numbers))
}
