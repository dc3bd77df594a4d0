//! Tables of code words for the numbers that spell files: the more often a number occurs, the
//! shorter its word.

ghost use Rattle.std.specs.Prelude.{◌≡◌, ◌⊎◌, ◌<◌, ◌≤◌, ◌^◌, ◌++◌, IfErr, IfOk, MatchOption, None, Some, false, length, map, sum_by, true};
ghost use Rattle.cmap_binary.specs.PrefixWords.{lengths_from, lengths_of};
ghost use Rattle.cmap_binary_writer.specs.Encoded.{HasOneWordEach, HaveOneWordEach};
ghost use Rattle.cmap_binary_writer.specs.EncodersSeen.{encoders_seen};
ghost use Rattle.cmap_bundle_maker.specs.Gathered.{AreTablesFor, counts_in, deltas_in, segments_in, slot_segments};
ghost use Rattle.cmap_bundle_maker.specs.Counted.{AreDistinct, AreSortedWords};
ghost use Rattle.cmap_bundle_maker.specs.Huffman.{huffman_words, is_rarer};
ghost use Rattle.cmap_bundle_maker.specs.InOrder.{AreInOrder};
ghost use Rattle.cmap_bundle_maker.specs.Seen.{frequencies_seen, words_seen};
ghost use Rattle.cmap_bundle_maker.specs.Tables.{filled, fits, flat_table, huffman_table, is_shorter, table_for};
ghost use Rattle.cmap_bundle_maker.specs.WordsMissing.{IsNoWordIf};

use crate::frequencies::{Frequency, frequencies_of};
use crate::lengths::{WordLength, word_lengths};
use crate::slots::Slot;
use cmap_binary_writer::segments::Segment;
use cmap_binary_writer::{Encoder, Encoders, Obstacle};
use cmap_values::fault::Fault;
use std::alloc::{AllocError, Global};

/// The greatest length of a code word, in bits.
const LONGEST: usize = 32;

/// The length of each code word, in bits, in a table that isn't by frequencies.
const FLAT: usize = 16;

/// The numbers that spell files, each as often as it occurs.
#[derive(Drop)]
struct Symbols {
    deltas: Vec<u32>,
    counts: Vec<u32>,
}

impl Symbols {
    /// Adds the numbers of segments, in order.
    fn add_segments(&mut self, segments: &[Segment]) -> Result<(), AllocError>
        ensures deltas { IfOk result (λ _. self.new.deltas.items ≡ self.old.deltas.items ++ deltas_in segments.now) }
        ensures counts { IfOk result (λ _. self.new.counts.items ≡ self.old.counts.items ++ counts_in segments.now) }
    {
        for segment in segments {
            self.deltas.extend_from_slice(&segment.deltas)?;
            self.counts.extend_from_slice(&segment.counts)?;
        }
        Ok(())
    }
}

/// Tables with a code word for each number that spells these files.
pub(crate) fn tables_for(alloc: Global, slots: &[Slot<'_>]) -> Result<Encoders, Fault<Obstacle>>
    ensures made { IfOk result (λ tables. AreTablesFor slots.now (encoders_seen tables)) }
    ensures alone { IfOk result (λ tables. HaveOneWordEach (encoders_seen tables)) }
    ensures err { IfErr result (IsNoWordIf ((table_for (deltas_in (segments_in slots.now)) ≡ None) ⊎ (table_for (counts_in (segments_in slots.now)) ≡ None))) }
{
    let Symbols { deltas, counts } = gather(alloc, slots)?;
    Ok(Encoders {
        delta: encoder_for(alloc, deltas)?,
        count: encoder_for(alloc, counts)?,
    })
}

/// The numbers of all segments of these files, in order.
fn gather(alloc: Global, slots: &[Slot<'_>]) -> Result<Symbols, AllocError>
    ensures deltas { IfOk result (λ symbols. symbols.deltas.items ≡ deltas_in (segments_in slots.now)) }
    ensures counts { IfOk result (λ symbols. symbols.counts.items ≡ counts_in (segments_in slots.now)) }
{
    let mut symbols = Symbols {
        deltas: Vec::new(alloc),
        counts: Vec::new(alloc),
    };
    for slot in slots {
        symbols.add_segments(segments_of(slot))?;
    }
    Ok(symbols)
}

/// The segments of a file, if it is in the binary form.
fn segments_of<'s>(slot: &'s Slot<'_>) -> &'s [Segment]
    ensures { result.now ≡ slot_segments slot.now }
{
    match slot {
        Slot::File(prepared) => &prepared.segments,
        Slot::Text(_) | Slot::Absent => &[],
    }
}

/// The table for these numbers.
fn encoder_for(alloc: Global, numbers: Vec<u32>) -> Result<Encoder, Fault<Obstacle>>
    ensures made { IfOk result (λ encoder. table_for numbers.items ≡ Some encoder) }
    ensures alone { IfOk result (λ encoder. HasOneWordEach encoder) }
    ensures err { IfErr result (IsNoWordIf (table_for numbers.items ≡ None)) }
{
    let frequencies = frequencies_of(alloc, numbers)?;
    match huffman_encoder(alloc, &frequencies)? {
        Some(encoder) => Ok(encoder),
        None => flat_encoder(alloc, &frequencies),
    }
}

/// The table by Huffman's method; `None` if a word has more than 32 bits, or if 2^16 words or more
/// have the same length.
fn huffman_encoder(alloc: Global, frequencies: &[Frequency]) -> Result<Option<Encoder>, AllocError>
    requires order { AreInOrder is_rarer (frequencies_seen frequencies.now) }
    requires distinct { AreDistinct (frequencies_seen frequencies.now) }
    requires few { sum_by (λ f. f.times) frequencies.now < 2 ^ 64 }
    ensures { IfOk result (λ found. MatchOption found (fits (huffman_table (frequencies_seen frequencies.now)) ≡ false)
        (λ encoder. (encoder ≡ huffman_table (frequencies_seen frequencies.now)) × (fits (huffman_table (frequencies_seen frequencies.now)) ≡ true) × HasOneWordEach encoder)) }
{
    let words = sorted_words(alloc, frequencies)?;
    match counts_of(alloc, &words)? {
        Some(counts) => Encoder::new(alloc, counts, &numbers_of_words(alloc, &words)?),
        None => Ok(None),
    }
}

/// The words of Huffman's method, the shortest first.
fn sorted_words(alloc: Global, frequencies: &[Frequency]) -> Result<Vec<WordLength>, AllocError>
    requires order { AreInOrder is_rarer (frequencies_seen frequencies.now) }
    requires distinct { AreDistinct (frequencies_seen frequencies.now) }
    requires few { sum_by (λ f. f.times) frequencies.now < 2 ^ 64 }
    ensures { IfOk result (λ words. AreSortedWords (huffman_words (frequencies_seen frequencies.now)) (words_seen words.items)) }
{
    let mut words = word_lengths(alloc, frequencies)?;
    words.sort_by_key(|word| (word.len, word.number))?;
    Ok(words)
}

/// The numbers of these words, in order.
fn numbers_of_words(alloc: Global, words: &[WordLength]) -> Result<Vec<u32>, AllocError>
    ensures { IfOk result (λ numbers. numbers.items ≡ map (λ word. word.number) words.now) }
{
    words.iter().map(|word| word.number).collect(alloc)
}

/// The number of these words, the shortest first, for each length from 1 to 32 bits; a word of 0
/// bits counts as a word of 1 bit. `None` if a word has more than 32 bits, or if 2^16 words or more
/// have the same length.
fn counts_of(alloc: Global, words: &[WordLength]) -> Result<Option<Vec<u16>>, AllocError>
    requires { AreInOrder is_shorter (words_seen words.now) }
    ensures { IfOk result (λ found. MatchOption found (fits (map filled (words_seen words.now)) ≡ false)
        (λ counts. (length counts.items ≡ 32) × (lengths_from 1 counts.items ≡ lengths_of (map filled (words_seen words.now))) × (fits (map filled (words_seen words.now)) ≡ true))) }
{
    let mut counts = vec![in alloc; 0u16; LONGEST]?;
    for word in words {
        let Some(count) = counts.get_mut(word.len.saturating_sub(1)) else {
            return Ok(None);
        };
        let Some(more) = count.checked_add(1) else {
            return Ok(None);
        };
        *count = more;
    }
    Ok(Some(counts))
}

/// A table with a code word of 16 bits for each of these numbers.
fn flat_encoder(alloc: Global, frequencies: &[Frequency]) -> Result<Encoder, Fault<Obstacle>>
    ensures made { IfOk result (λ encoder. (encoder ≡ flat_table (frequencies_seen frequencies.now)) × (length frequencies.now < 2 ^ 16)) }
    ensures err { IfErr result (IsNoWordIf (2 ^ 16 ≤ length frequencies.now)) }
{
    let Ok(count) = u16::try_from(frequencies.len()) else {
        return Err(Fault::Refused(Obstacle::NoWord));
    };
    let mut counts = vec![in alloc; 0u16; FLAT]?;
    counts[FLAT - 1] = count;
    let numbers = numbers_of_frequencies(alloc, frequencies)?;
    match Encoder::new(alloc, counts, &numbers)? {
        Some(encoder) => Ok(encoder),
        None => Err(Fault::Refused(Obstacle::NoWord)),
    }
}

/// These numbers, in order.
fn numbers_of_frequencies(alloc: Global, frequencies: &[Frequency]) -> Result<Vec<u32>, AllocError>
    ensures { IfOk result (λ numbers. numbers.items ≡ map (λ f. f.number) frequencies.now) }
{
    frequencies
        .iter()
        .map(|frequency| frequency.number)
        .collect(alloc)
}
