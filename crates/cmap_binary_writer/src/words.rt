//! The code words of symbols, and the bits that spell symbols with them.

ghost use Rattle.std.specs.Prelude.{◌↔◌, ◌≡◌, ◌+◌, ◌++◌, ◌≤◌, ◌<◌, ◌*◌, ◌-◌, ◌^◌, All, Any, IfNone, IfOk, IfSome, IsTrue, MatchOption, flat_map, length, replicate};
ghost use Rattle.std.specs.List.Sorted.{IsNonDecreasingBy, IsPermutation};
ghost use Rattle.cmap_binary.specs.TableFronts.{TableAt};
ghost use Rattle.cmap_binary.specs.PrefixWords.{AreWordLengths, BeginWithWordsOf, bits, lengths_from, zip_words};
ghost use Rattle.cmap_binary_writer.specs.Spelled.{HasWord, IsNoSymbol, IsNoWordOf, IsSpelledIn};
ghost use Rattle.cmap_binary_writer.specs.WordsHeld.{MakesWords};
ghost use Rattle.cmap_binary_writer.specs.Written.{Appends, Writes, bytes_of};

use crate::bits::BitWriter;
use crate::bytes::{push_number, push_u16s};
use std::alloc::{AllocError, Global};
use std::marker::Model;

/// The most bits of a code word.
const LONGEST: u8 = 32;

/// The first two bytes of a table with symbols: any number but 0. A 0 means that there are no symbols and
/// no counts of lengths.
const FILLED: u32 = 1;

/// The code word of a symbol: the last `len` bits of a number.
#[derive(Clone, Copy, Debug)]
pub(crate) struct Word {
    pub(crate) symbol: u32,
    pub(crate) len: u8,
    pub(crate) value: u32,
}

/// Symbols with their code words, none of which is a prefix of another one. A clause sees the symbols in
/// the order of their words, each with the length of its word in bits.
#[derive(Debug, Drop)]
pub struct Encoder {
    /// The number of words of each length, from length 1 on.
    counts: Vec<u16>,
    words: Vec<Word>,
    /// The same words in the order of their symbols.
    by_symbol: Vec<Word>,
}

impl Model for Encoder {
    ghost use Rattle.std.specs.Prelude.{List};
    ghost use Rattle.cmap_binary.specs.PrefixWords.{CodeWord};

    ghost Value = { List CodeWord };

    ghost use Rattle.std.specs.Prelude.{◌≡◌, ◌≤◌, length};
    ghost use Rattle.std.specs.List.Sorted.{IsNonDecreasingBy, IsPermutation};
    ghost use Rattle.cmap_binary.specs.PrefixWords.{IsSound, lengths_from, lengths_of};
    ghost use Rattle.cmap_binary_writer.specs.WordsHeld.{words_seen, AreWords};

    ghost view = { λ e. words_seen e.words.items };

    ghost invariant = { λ e. record {
      sound : IsSound (words_seen e.words.items);
      words : AreWords e.words.items;
      counts : lengths_of (words_seen e.words.items) ≡ lengths_from 1 e.counts.items;
      few : length e.counts.items ≤ 32;
      same : IsPermutation e.words.items e.by_symbol.items;
      sorted : IsNonDecreasingBy (λ w. w.symbol) e.by_symbol.items;
    } };
}

impl Encoder {
    /// The symbols with code words of the counted lengths; `counts` has the number of words of each length,
    /// from length 1 on. The result is `None` where the counts and symbols don't form a table: the number
    /// of words isn't the number of symbols, a word has no bits, or there are more words than fit.
    pub fn new(
        alloc: Global,
        counts: Vec<u16>,
        symbols: &[u32],
    ) -> Result<Option<Encoder>, AllocError>
        requires few { length counts.items ≤ 32 }
        ensures { IfOk result (λ o. MatchOption o (length symbols.now ≡ length (lengths_from 1 counts.items) → AreWordLengths (lengths_from 1 counts.items) → ⊥)
            (λ table. (length symbols.now ≡ length (lengths_from 1 counts.items)) × (table ≡ zip_words (lengths_from 1 counts.items) symbols.now))) }
    {
        let lens = word_lengths(alloc, &counts)?;
        if symbols.len() != lens.len() {
            return Ok(None);
        }
        let Some(words) = make_words(alloc, &lens, symbols)? else {
            return Ok(None);
        };
        let by_symbol = sorted_words(alloc, &words)?;
        Ok(Some(Encoder {
            counts,
            words,
            by_symbol,
        }))
    }

    /// Whether all symbols are at most this number.
    pub fn fits(&self, most: u32) -> bool
        ensures { IsTrue result ↔ All (λ p. p.symbol ≤ most) self.now }
    {
        for word in &self.words {
            if word.symbol > most {
                return false;
            }
        }
        true
    }

    /// Writes the table in its form in a bundle, with symbols of `width` bytes each.
    pub fn write(&self, out: &mut Vec<u8>, width: u8) -> Result<(), AllocError>
        requires width { (1 ≤ width) × (width ≤ 4) }
        requires symbols { All (λ p. p.symbol < 2 ^ (8 * width)) self.now }
        ensures written { IfOk result (λ _. Appends out.old.items out.new.items (Writes (TableAt width) self.now)) }
        ensures len { IfOk result (λ _. length out.new.items < length out.old.items + 2 ^ 24) }
    {
        push_number(out, FILLED, 2)?;
        out.push(self.counts.len() as u8)?;
        push_u16s(out, &self.counts)?;
        push_symbols(out, &self.words, width)
    }

    /// The fewest bytes whose bits begin with the code words of these symbols, in order; `None` where a
    /// symbol has no word.
    pub fn spell(&self, alloc: Global, symbols: &[u32]) -> Result<Option<Vec<u8>>, AllocError>
        ensures { IfOk result (λ o. MatchOption o (Any (IsNoSymbol self.now) symbols.now)
            (λ bytes. BeginWithWordsOf self.now symbols.now (bits bytes.items)
            × (length bytes.items ≤ 4 * length symbols.now)
            × IsSpelledIn self.now symbols.now bytes.items)) }
    {
        let mut written = BitWriter::new(alloc);
        for symbol in symbols {
            let Some(word) = self.find(*symbol) else {
                return Ok(None);
            };
            written.push(word.value, word.len)?;
        }
        Ok(Some(written.finish()?))
    }

    /// The code word of a symbol.
    fn find(&self, symbol: u32) -> Option<Word>
        ensures some { IfSome result (λ word. HasWord self.now symbol word.len word.value) }
        ensures none { IsNoWordOf self.now symbol result }
    {
        match self
            .by_symbol
            .binary_search_by_key(&symbol, |word| word.symbol)
        {
            Ok(index) => Some(self.by_symbol[index]),
            Err(_) => None,
        }
    }
}

/// The same words in the order of their symbols.
fn sorted_words(alloc: Global, words: &[Word]) -> Result<Vec<Word>, AllocError>
    ensures same { IfOk result (λ sorted. IsPermutation words.now sorted.items) }
    ensures sorted { IfOk result (λ sorted. IsNonDecreasingBy (λ w. w.symbol) sorted.items) }
{
    let mut sorted = Vec::with_capacity(alloc, words.len())?;
    sorted.extend_from_slice(words)?;
    sorted.sort_by_key(|word| word.symbol)?;
    Ok(sorted)
}

/// The lengths of code words, in order. `counts` has the number of words of each length, from length 1 on.
fn word_lengths(alloc: Global, counts: &[u16]) -> Result<Vec<u8>, AllocError>
    requires { length counts.now ≤ 32 }
    ensures { IfOk result (λ lens. lens.items ≡ lengths_from 1 counts.now) }
{
    let mut lens = Vec::new(alloc);
    for i in 0..counts.len() {
        push_copies(&mut lens, i as u8 + 1, counts[i])?;
    }
    Ok(lens)
}

/// Adds `count` copies of a number.
fn push_copies(numbers: &mut Vec<u8>, number: u8, count: u16) -> Result<(), AllocError>
    ensures { IfOk result (λ _. numbers.new.items ≡ numbers.old.items ++ replicate count number) }
{
    for _ in 0..count {
        numbers.push(number)?;
    }
    Ok(())
}

/// The symbols with code words of these lengths; `None` where the lengths aren't in ascending order from 1
/// to 32, or leave no space for a word.
fn make_words(alloc: Global, lens: &[u8], symbols: &[u32]) -> Result<Option<Vec<Word>>, AllocError>
    requires { length symbols.now ≡ length lens.now }
    ensures { IfOk result (λ o. MatchOption o (AreWordLengths lens.now → ⊥)
        (λ words. MakesWords lens.now symbols.now words.items)) }
{
    let mut words = Vec::new(alloc);
    let mut last = 0;
    let mut next = 0;
    for i in 0..lens.len() {
        let len = lens[i];
        let Some(value) = value_after(last, next, len) else {
            return Ok(None);
        };
        words.push(Word {
            symbol: symbols[i],
            len,
            value,
        })?;
        last = len;
        next = u64::from(value) + 1;
    }
    Ok(Some(words))
}

/// Writes the symbols of words, of `width` bytes each.
fn push_symbols(out: &mut Vec<u8>, words: &[Word], width: u8) -> Result<(), AllocError>
    requires { width ≤ 4 }
    ensures { IfOk result (λ _. out.new.items ≡ out.old.items ++ flat_map (λ w. bytes_of width w.symbol) words.now) }
{
    for word in words {
        push_number(out, word.symbol, width)?;
    }
    Ok(())
}

/// The value of the next code word, of `len` bits. The words before it have at most `last` bits, and `next`
/// is the first number of `last` bits that has none of them as a prefix. The result is `None` where no word
/// is left.
fn value_after(last: u8, next: u64, len: u8) -> Option<u32>
    requires last { last ≤ 32 }
    requires next { next ≤ 2 ^ last }
    ensures some { IfSome result (λ value. (1 ≤ len) × (last ≤ len) × (len ≤ 32)
        × (value ≡ next * 2 ^ (len - last)) × (value < 2 ^ len)) }
    ensures none { IfNone result (1 ≤ len → last ≤ len → len ≤ 32 → 2 ^ len ≤ next * 2 ^ (len - last)) }
{
    if len == 0 || len < last || len > LONGEST {
        return None;
    }
    let value = next << (len - last);
    if value >= 1 << len {
        return None;
    }
    Some(value as u32)
}
