//! The lengths of the code words of numbers, by Huffman's method: all words together take the
//! fewest bits.

ghost use Rattle.std.specs.Prelude.{◌≡◌, ◌+◌, ◌<◌, ◌≤◌, ◌^◌, [], All, IfOk, length, map, sum_by};
ghost use Rattle.cmap_bundle_maker.specs.Groups.{AreRising, IsJoinedNext, IsSized};
ghost use Rattle.cmap_bundle_maker.specs.Huffman.{alone, both, join, longer, words_joined};
ghost use Rattle.cmap_bundle_maker.specs.Seen.{AreQueued, Takes, frequencies_seen, frequency_seen, group_seen, groups_in, groups_seen, words_seen};

use crate::frequencies::Frequency;
use std::alloc::{AllocError, Global};
use std::collections::VecDeque;

/// A number, and the length of its code word in bits.
#[derive(Clone, Copy)]
pub(crate) struct WordLength {
    pub(crate) number: u32,
    pub(crate) len: usize,
}

/// Numbers whose code words share a prefix: how often the numbers occur in all, and the number of
/// bits of each word after the prefix.
#[derive(Drop)]
struct Group {
    times: u64,
    words: Vec<WordLength>,
}

impl Group {
    /// The group of one number.
    fn alone(alloc: Global, frequency: Frequency) -> Result<Group, AllocError>
        ensures { IfOk result (λ group. group_seen group ≡ alone (frequency_seen frequency)) }
    {
        let Frequency { number, times } = frequency;
        let words = vec![in alloc; WordLength { number, len: 0 }; 1]?;
        Ok(Group { times, words })
    }

    /// The group with the numbers of both groups. Each word begins with one more bit.
    fn join(mut self, other: Group) -> Result<Group, AllocError>
        requires few { self.times + other.times < 2 ^ 64 }
        requires sized { IsSized (group_seen self) }
        requires other { IsSized (group_seen other) }
        ensures { IfOk result (λ group. group_seen group ≡ both (group_seen self) (group_seen other)) }
    {
        self.words.extend_from_slice(&other.words)?;
        lengthen(&mut self.words);
        Ok(Group {
            times: self.times + other.times,
            words: self.words,
        })
    }
}

/// Lengthens each word by one bit.
fn lengthen(words: &mut [WordLength])
    requires { All (λ w. w.len + 1 < 2 ^ 64) words.old }
    ensures { words_seen words.new ≡ map longer (words_seen words.old) }
{
    for i in 0..words.len() {
        let WordLength { number, len } = words[i];
        words[i] = WordLength {
            number,
            len: len + 1,
        };
    }
}

/// Groups of numbers in two queues, each in the order of frequency: groups of one number, and
/// joined groups.
#[derive(Drop)]
struct Groups {
    alone: VecDeque<Group>,
    joined: VecDeque<Group>,
}

impl Groups {
    /// The groups of one number each.
    fn of_each(alloc: Global, frequencies: &[Frequency]) -> Result<Groups, AllocError>
        ensures alone { IfOk result (λ groups. groups_seen groups.alone.items ≡ map alone (frequencies_seen frequencies.now)) }
        ensures joined { IfOk result (λ groups. groups.joined.items ≡ []) }
    {
        let mut groups = Groups {
            alone: VecDeque::new(alloc),
            joined: VecDeque::new(alloc),
        };
        for frequency in frequencies {
            groups.alone.push_back(Group::alone(alloc, *frequency)?)?;
        }
        Ok(groups)
    }

    /// Joins the two rarest groups.
    fn join(&mut self) -> Result<(), AllocError>
        requires queues { AreQueued self.old }
        requires two { 2 ≤ length (groups_in self.old) }
        ensures order { IfOk result (λ _. groups_in self.new ≡ join (groups_in self.old)) }
        ensures queues { IfOk result (λ _. AreQueued self.new) }
    {
        let Some(first) = self.take_rarest() else {
            return Ok(());
        };
        let Some(second) = self.take_rarest() else {
            return Ok(());
        };
        self.joined.push_back(first.join(second)?)?;
        Ok(())
    }

    /// Takes the rarest group; of equally frequent groups, a group that wasn't joined.
    fn take_rarest(&mut self) -> Option<Group>
        ensures { Takes self.old result self.new }
    {
        if self.is_joined_next() {
            self.joined.pop_front()
        } else {
            self.alone.pop_front()
        }
    }

    /// Whether the next group is a joined group.
    fn is_joined_next(&self) -> bool
        ensures { IsJoinedNext (groups_seen self.now.alone.items) (groups_seen self.now.joined.items) result }
    {
        match (self.alone.front(), self.joined.front()) {
            (Some(alone), Some(joined)) => joined.times < alone.times,
            (alone, _) => alone.is_none(),
        }
    }
}

/// The lengths of the code words of numbers with these frequencies, the rarest number first.
pub(crate) fn word_lengths(
    alloc: Global,
    frequencies: &[Frequency],
) -> Result<Vec<WordLength>, AllocError>
    requires rising { AreRising (map alone (frequencies_seen frequencies.now)) }
    requires few { sum_by (λ f. f.times) frequencies.now < 2 ^ 64 }
    ensures { IfOk result (λ words. words_seen words.items ≡ words_joined (map alone (frequencies_seen frequencies.now))) }
{
    let mut groups = Groups::of_each(alloc, frequencies)?;
    for _ in 1..frequencies.len() {
        groups.join()?;
    }
    match groups.take_rarest() {
        Some(group) => Ok(group.words),
        None => Ok(Vec::new(alloc)),
    }
}
