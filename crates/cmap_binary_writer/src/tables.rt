//! The code words of the tables of a bundle, for writing files.

ghost use Rattle.std.specs.Prelude.{◌≡◌, ◌≤◌, ◌⊎◌, ◌^◌, Any, IfOk, MatchOption};
ghost use Rattle.cmap_binary.specs.BundleSeen.{tables_seen};
ghost use Rattle.cmap_binary_writer.specs.EncodersSeen.{encoders_seen};
ghost use Rattle.cmap_binary_writer.specs.ManyWords.{HasManyWords};

use crate::columns::Encoders;
use crate::words::Encoder;
use cmap_binary::Tables;
use cmap_binary::prefix::PrefixTable;
use std::alloc::{AllocError, Global};

/// The most bits of a code word.
const MOST_BITS: usize = 32;

impl Encoders {
    /// The code words of the tables of a bundle; `None` where 2^16 words or more have one length.
    ///
    /// An error means that memory ran out.
    pub fn of_tables(alloc: Global, tables: &Tables) -> Result<Option<Encoders>, AllocError>
        ensures { IfOk result (λ found. MatchOption found (HasManyWords tables.now.delta ⊎ HasManyWords tables.now.count)
            (λ encoders. encoders_seen encoders ≡ tables_seen tables.now)) }
    {
        let Some(delta) = encoder_of(alloc, &tables.delta)? else {
            return Ok(None);
        };
        let Some(count) = encoder_of(alloc, &tables.count)? else {
            return Ok(None);
        };
        Ok(Some(Encoders { delta, count }))
    }
}

/// The code words of a table; `None` where 2^16 words or more have one length.
fn encoder_of(alloc: Global, table: &PrefixTable) -> Result<Option<Encoder>, AllocError>
    ensures { IfOk result (λ found. MatchOption found (HasManyWords table.now) (λ encoder. encoder ≡ table.now)) }
{
    let (counts, symbols) = table.parts();
    let (counts, _none) = counts.split_at(counts.len().min(MOST_BITS));
    let Some(counts) = narrowed(alloc, counts)? else {
        return Ok(None);
    };
    Encoder::new(alloc, counts, symbols)
}

/// The numbers as `u16`; `None` where a number doesn't fit.
fn narrowed(alloc: Global, numbers: &[u32]) -> Result<Option<Vec<u16>>, AllocError>
    ensures { IfOk result (λ found. MatchOption found (Any (λ n. 2 ^ 16 ≤ n) numbers.now)
        (λ narrow. narrow.items ≡ numbers.now)) }
{
    let mut narrow = Vec::new(alloc);
    for number in numbers {
        let Ok(number) = u16::try_from(*number) else {
            return Ok(None);
        };
        narrow.push(number)?;
    }
    Ok(Some(narrow))
}
