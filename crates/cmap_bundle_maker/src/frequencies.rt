//! The frequencies of numbers.

ghost use Rattle.std.specs.Prelude.{◌≡◌, ◌+◌, ◌<◌, ◌^◌, IfOk, length, sum_by};
ghost use Rattle.std.specs.List.Sorted.{IsNonDecreasing};
ghost use Rattle.cmap_bundle_maker.specs.Counted.{AreFrequencies, CountsNumber};
ghost use Rattle.cmap_bundle_maker.specs.Huffman.{frequencies_in};
ghost use Rattle.cmap_bundle_maker.specs.Seen.{frequencies_seen};

use std::alloc::{AllocError, Global};

/// A number, and how often it occurs.
#[derive(Clone, Copy)]
pub(crate) struct Frequency {
    pub(crate) number: u32,
    pub(crate) times: u64,
}

/// The frequency of each of these numbers: the rarest number first, and of equally frequent numbers
/// the lowest first.
pub(crate) fn frequencies_of(
    alloc: Global,
    mut numbers: Vec<u32>,
) -> Result<Vec<Frequency>, AllocError>
    ensures found { IfOk result (λ frequencies. frequencies_seen frequencies.items ≡ frequencies_in numbers.items) }
    ensures total { IfOk result (λ frequencies. sum_by (λ f. f.times) frequencies.items ≡ length numbers.items) }
{
    numbers.sort()?;
    let mut frequencies = count_numbers(alloc, &numbers)?;
    frequencies.sort_by_key(|frequency| frequency.times)?;
    Ok(frequencies)
}

/// The frequency of each of these sorted numbers, the lowest number first.
fn count_numbers(alloc: Global, numbers: &[u32]) -> Result<Vec<Frequency>, AllocError>
    requires { IsNonDecreasing numbers.now }
    ensures { IfOk result (λ frequencies. AreFrequencies numbers.now (frequencies_seen frequencies.items)) }
{
    let mut frequencies = Vec::new(alloc);
    for number in numbers {
        count_number(&mut frequencies, *number)?;
    }
    Ok(frequencies)
}

/// Counts a number: once more in the last frequency, or in a new frequency after it.
fn count_number(frequencies: &mut Vec<Frequency>, number: u32) -> Result<(), AllocError>
    requires { sum_by (λ f. f.times) frequencies.old.items + 1 < 2 ^ 64 }
    ensures { IfOk result (λ _. CountsNumber (frequencies_seen frequencies.old.items) number (frequencies_seen frequencies.new.items)) }
{
    if let Some(last) = frequencies.last_mut() {
        if last.number == number {
            last.times += 1;
            return Ok(());
        }
    }
    frequencies.push(Frequency { number, times: 1 })?;
    Ok(())
}
