//! The words of a table, found by the number of words of each length.

ghost use Rattle.std.specs.Prelude.{◌≡◌, ◌⊎◌, ◌++◌, ◌<◌, ◌≤◌, ℕ, List, [], None, length, IfErr, IfNone, IfOk, IfSome, MatchOption};
ghost use Rattle.cmap_binary.specs.BitQueues.{IsFilled, bits_ahead};
ghost use Rattle.cmap_binary.specs.PrefixWords.{AreWordLengths, bits_of, lengths_from};
ghost use Rattle.cmap_binary.specs.WordsByLength.{IsFirst, IsSearched, IsTable, first_word};
ghost use Rattle.cmap_binary.specs.WordsFound.{FindsFirst, IsKnown, IsSearchedByte, KnowBytes, search_seen};

use crate::bit_queue::BitQueue;
use std::alloc::{AllocError, Global};

/// The most bits that a word has.
const LONGEST: usize = 32;

/// The number of values of a byte.
const BYTES: usize = 256;

/// The symbol of the word that bits begin with, and the number of bits in that word.
#[derive(Clone, Copy)]
pub(super) struct Word {
    pub(super) symbol: u32,
    pub(super) len: u32,
}

/// The state of a search for the word that bits begin with. The word has more than `len` bits. `rank`
/// is the number of words with at most `len` bits. `past` is the number in the first `len` bits,
/// counted from the first number after these words.
#[derive(Clone, Copy)]
pub(super) struct Search {
    len: u32,
    rank: usize,
    past: usize,
}

/// The results of the search for the next word, for each value of the next byte.
#[derive(Drop)]
pub(super) struct Known {
    /// The word that the byte begins with, or `LONGER`.
    words: Vec<Word>,
    /// The state of the search for the word.
    searches: Vec<Search>,
}

/// Stands for the word of a byte that begins with no word of up to eight bits.
const LONGER: Word = Word { symbol: 0, len: 0 };

/// The start of a search: no bit has been looked at.
const START: Search = Search {
    len: 0,
    rank: 0,
    past: 0,
};

/// The next word, whose bits are all held in the queue; `None` if the bits begin with no word. The
/// two lists are passed as `Vec`s, and aren't read for a word that is known.
#[inline(always)]
pub(super) fn next_word(
    counts: &Vec<u32>,
    symbols: &Vec<u32>,
    known: &Known,
    bits: &BitQueue<'_>,
) -> Option<Word>
    requires table { IsTable counts.now.items symbols.now.items }
    requires knows { KnowBytes counts.now.items symbols.now.items known.now }
    requires filled { IsFilled bits.now }
    ensures first { FindsFirst counts.now.items symbols.now.items (bits_ahead bits.now) result }
    ensures at_hand { IfSome result (λ word. word.len ≤ bits.now.held) }
{
    let word = look_up(known, bits);
    if word.len != 0 {
        return Some(word);
    }
    find_ahead(counts, symbols, known, bits)
}

/// The next word if it is known by the next eight bits, or else `LONGER`.
#[inline(always)]
pub(super) fn look_up(known: &Known, bits: &BitQueue<'_>) -> Word
    requires { length known.now.words.items ≡ 256 }
    ensures { (counts symbols : List ℕ) → KnowBytes counts symbols known.now → 0 < result.len
        → (result.len ≤ bits.now.held) × IsFirst counts symbols (bits_ahead bits.now) result.symbol result.len }
{
    match bits.peek_u8() {
        Some(byte) => known.words[usize::from(byte)],
        None => LONGER,
    }
}

/// The answer of `next_word` for a word that isn't known.
#[inline(always)]
pub(super) fn find_ahead(
    counts: &Vec<u32>,
    symbols: &Vec<u32>,
    known: &Known,
    bits: &BitQueue<'_>,
) -> Option<Word>
    requires table { IsTable counts.now.items symbols.now.items }
    requires knows { KnowBytes counts.now.items symbols.now.items known.now }
    requires filled { IsFilled bits.now }
    ensures first { FindsFirst counts.now.items symbols.now.items (bits_ahead bits.now) result }
    ensures at_hand { IfSome result (λ word. word.len ≤ bits.now.held) }
{
    let (number, held) = bits.at_hand();
    // The answer is taken apart, so that a word that is known needn't go through memory.
    let word = find_from(counts, symbols, known, number, held)?;
    Some(word)
}

/// The word that the last `held` bits of a number begin with, searched from the state that is known.
/// `None` means that the bits begin with no word, if at least as many bits are held as the longest
/// word has, or if no bit comes after them. Few words need this search, since frequent symbols have
/// short words.
#[cold]
#[inline(never)]
fn find_from(
    counts: &Vec<u32>,
    symbols: &Vec<u32>,
    known: &Known,
    number: u64,
    held: u32,
) -> Option<Word>
    requires table { IsTable counts.now.items symbols.now.items }
    requires knows { KnowBytes counts.now.items symbols.now.items known.now }
    requires most { held ≤ 64 }
    ensures found { IfSome result (λ word. (word.len ≤ held) × ((more : List ℕ)
        → IsFirst counts.now.items symbols.now.items (bits_of held number ++ more) word.symbol word.len)) }
    ensures none { IfNone result ((more : List ℕ) → (32 ≤ held) ⊎ (more ≡ [])
        → first_word counts.now.items (bits_of held number ++ more) ≡ None) }
{
    let start = if held < 8 {
        START
    } else {
        known.searches[(number >> (held - 8) & 0xFF) as usize]
    };
    find(counts, symbols, number, held, start).ok()
}

/// The word that the last `held` bits of a number begin with, searched from `start`; or the state of
/// the search, if no word is found. The words of one length are numbers in a row; after the last
/// word, the words of the next length begin at twice the number that follows it.
fn find(
    counts: &[u32],
    symbols: &[u32],
    number: u64,
    held: u32,
    start: Search,
) -> Result<Word, Search>
    requires table { IsTable counts.now symbols.now }
    requires most { held ≤ 64 }
    requires start { IsSearched counts.now (bits_of held number) (search_seen start) }
    ensures found { IfOk result (λ word. (word.len ≤ held) × ((more : List ℕ)
        → IsFirst counts.now symbols.now (bits_of held number ++ more) word.symbol word.len)) }
    ensures searched { IfErr result (λ search. IsSearched counts.now (bits_of held number) (search_seen search)) }
    ensures none { IfErr result (λ _. (more : List ℕ) → (32 ≤ held) ⊎ (more ≡ [])
        → first_word counts.now (bits_of held number ++ more) ≡ None) }
{
    let mut rank = start.rank;
    let mut past = start.past;
    let end = held.min(LONGEST as u32);
    for i in start.len..end {
        let Some(count) = counts.get(i as usize) else {
            return Err(Search { len: i, rank, past });
        };
        let count = *count as usize;
        let bit = number >> (held - 1 - i) & 1;
        past = past * 2 + bit as usize;
        if past < count {
            let symbol = symbols[rank + past];
            let len = i + 1;
            return Ok(Word { symbol, len });
        }
        past -= count;
        rank += count;
    }
    Err(Search {
        len: end,
        rank,
        past,
    })
}

/// Searches for the next word, for each value of the next byte.
pub(super) fn search_bytes(
    alloc: Global,
    counts: &[u32],
    symbols: &[u32],
) -> Result<Known, AllocError>
    requires { IsTable counts.now symbols.now }
    ensures { IfOk result (KnowBytes counts.now symbols.now) }
{
    let mut words = Vec::with_capacity(alloc, BYTES)?;
    let mut searches = Vec::with_capacity(alloc, BYTES)?;
    for byte in 0..BYTES {
        let (word, search) = search_byte(counts, symbols, byte as u8);
        words.push(word)?;
        searches.push(search)?;
    }
    Ok(Known { words, searches })
}

/// The word that the byte begins with, or `LONGER`, and the state of the search for the word.
fn search_byte(counts: &[u32], symbols: &[u32], byte: u8) -> (Word, Search)
    requires { IsTable counts.now symbols.now }
    ensures word { IsKnown counts.now symbols.now byte result.0 }
    ensures search { IsSearchedByte counts.now byte result.1 }
{
    match find(counts, symbols, u64::from(byte), 8, START) {
        Ok(word) => (word, START),
        Err(search) => (LONGER, search),
    }
}

/// The number of words; `None` if a word is longer than `LONGEST` bits, or if there isn't enough
/// space for all words: a word of one bit takes half of the space.
pub(super) fn count_words(counts: &[u32]) -> Option<usize>
    ensures { let lens = lengths_from 1 counts.now in MatchOption result (AreWordLengths lens → ⊥)
        (λ total. (total ≡ length lens) × AreWordLengths lens) }
{
    let mut room: u64 = 1 << LONGEST;
    let mut total = 0;
    for i in 0..counts.len() {
        let count = counts[i];
        if count != 0 && i >= LONGEST {
            return None;
        }
        room = room.checked_sub(u64::from(count) << LONGEST.saturating_sub(i + 1))?;
        total += count as usize;
    }
    Some(total)
}
