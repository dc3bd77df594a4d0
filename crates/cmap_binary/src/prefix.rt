//! Prefix tables: symbols that are encoded by words of bits. No word is a prefix of another word.

ghost use Rattle.std.specs.Prelude.{◌≡◌, ℕ, IfSome, IfNone, length};
ghost use Rattle.cmap_binary.specs.PrefixWords.{AreWordLengths, BeginsAt, Decodes, lengths_from, zip_words};
ghost use Rattle.cmap_binary.specs.BitQueues.{bits_ahead};
ghost use Rattle.cmap_binary.specs.Reader.{bits_left, IsAtByte, after_bits};
ghost use Rattle.cmap_binary.specs.TableTaken.{ParsesTable};

mod reading;
mod words;

use self::reading::parse;
use self::words::{Known, find_ahead, look_up, next_word};
use crate::bit_queue::BitQueue;
use crate::bits::Reader;
use std::alloc::{AllocError, Global};
use std::fmt;
use std::marker::Model;

/// Symbols, each encoded by a word of 1 to 32 bits, so that bits can be read word by word. A row of
/// bits need not begin with a word.
#[derive(Drop)]
pub struct PrefixTable {
    /// The number of words of each length, from 1 on.
    counts: Vec<u32>,
    symbols: Vec<u32>,
    /// The results of the search for the next word, for each value of the next byte.
    known: Known,
}

// Contracts see the symbols in the order of their words, each with the length of its word in bits.
impl Model for PrefixTable {
    ghost use Rattle.std.specs.Prelude.{◌≡◌, List, length};
    ghost use Rattle.cmap_binary.specs.PrefixWords.{CodeWord};

    ghost Value = { List CodeWord };

    ghost use Rattle.cmap_binary.specs.WordsByLength.{words_of, IsTable};
    ghost use Rattle.cmap_binary.specs.WordsFound.{KnowBytes};

    ghost view = { λ t. words_of t.counts.items t.symbols.items };

    ghost invariant = { λ t. record {
      table : IsTable t.counts.items t.symbols.items;
      knows : KnowBytes t.counts.items t.symbols.items t.known;
    } };
}

/// The counts and the symbols; the known words follow from these.
impl fmt::Debug for PrefixTable {
    fn fmt<W: fmt::Write>(&self, f: &mut fmt::Formatter<W>) -> fmt::Result {
        fmt::Debug::fmt(&(&self.counts, &self.symbols), f)
    }
}

impl PrefixTable {
    /// Reads the table that comes next, with symbols of four bytes each: two bytes that are 0 if there
    /// is no symbol, a byte with the number of lengths that are counted, the counts in two bytes each
    /// from length 1 on, and the symbols, all big-endian. `None` if no valid table comes next: if bytes
    /// are missing, a word is longer than 32 bits, or there are more words than fit.
    ///
    /// It fails only if memory runs out. The reader moves only past a valid table, to the byte after
    /// it. The reader must be at a byte boundary, as for all calls that read bytes.
    pub fn parse_delta(
        alloc: Global,
        reader: &mut Reader<'_>,
    ) -> Result<Option<PrefixTable>, AllocError>
        requires { IsAtByte reader.old }
        ensures { ParsesTable 4 reader.old reader.new result }
    {
        parse(alloc, reader, 4)
    }

    /// Reads the table that comes next, with symbols of one byte each. All else is as in `parse_delta`.
    pub fn parse_count(
        alloc: Global,
        reader: &mut Reader<'_>,
    ) -> Result<Option<PrefixTable>, AllocError>
        requires { IsAtByte reader.old }
        ensures { ParsesTable 1 reader.old reader.new result }
    {
        parse(alloc, reader, 1)
    }

    /// The number of words of each length, from 1 on, and the symbols in the order of their words.
    pub fn parts(&self) -> (&[u32], &[u32])
        ensures words { zip_words (lengths_from 1 result.0.now) result.1.now ≡ self.now }
        ensures lengths { AreWordLengths (lengths_from 1 result.0.now) }
        ensures symbols { length result.1.now ≡ length (lengths_from 1 result.0.now) }
    {
        (&self.counts, &self.symbols)
    }

    /// The symbol of the word that comes next; the reader moves past that word. `None` if no word of
    /// the table comes next; then the reader doesn't move. No memory is allocated.
    pub fn decode(&self, reader: &mut Reader<'_>) -> Option<u32>
        ensures found { IfSome result (λ symbol. (len : ℕ)
            × Decodes self.now (bits_left reader.old) symbol len (bits_left reader.new)
            × (reader.new ≡ after_bits reader.old len)) }
        ensures none { IfNone result ((i : ℕ) → BeginsAt self.now (bits_left reader.old) i → ⊥) }
        ensures only { (i j : ℕ) → BeginsAt self.now (bits_left reader.old) i
            → BeginsAt self.now (bits_left reader.old) j → i ≡ j }
        ensures unmoved { IfNone result (reader.new ≡ reader.old) }
    {
        let mut bits = reader.queue();
        bits.fill();
        let word = next_word(&self.counts, &self.symbols, &self.known, &bits)?;
        reader.skip_bits(word.len);
        Some(word.symbol)
    }
}

/// The symbol of the word that the bits begin with; the word is taken from the bits. `None` if the bits
/// begin with no word of the table; then no bit is taken. No memory is allocated.
#[inline(always)]
pub fn take_symbol(table: &PrefixTable, bits: &mut BitQueue<'_>) -> Option<u32>
    ensures found { IfSome result (λ symbol. (len : ℕ)
        × Decodes table.now (bits_ahead bits.old) symbol len (bits_ahead bits.new)) }
    ensures none { IfNone result ((i : ℕ) → BeginsAt table.now (bits_ahead bits.old) i → ⊥) }
    ensures only { (i j : ℕ) → BeginsAt table.now (bits_ahead bits.old) i
        → BeginsAt table.now (bits_ahead bits.old) j → i ≡ j }
    ensures unmoved { IfNone result (bits_ahead bits.new ≡ bits_ahead bits.old) }
{
    bits.fill();
    let known = look_up(&table.known, bits);
    if known.len != 0 {
        bits.skip(known.len);
        return Some(known.symbol);
    }
    let word = find_ahead(&table.counts, &table.symbols, &table.known, bits)?;
    bits.skip(word.len);
    Some(word.symbol)
}
