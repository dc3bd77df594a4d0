//! The search for the run that holds a code after all blocks.

ghost use Rattle.std.specs.Prelude.{◌≡◌, ◌+◌, ◌-◌, ◌*◌, ◌<◌, ◌≤◌, All, Any, IfNone, IfSome, IsTrue, OnSome, is_some, length, map};
ghost use Rattle.std.specs.List.{AllWithin};
ghost use Rattle.std.specs.Option.{option_copied};
ghost use Rattle.cmap_runs.specs.Order.{IsInOrder};
ghost use Rattle.cmap_runs.specs.Blocks.{AreBlocks};
ghost use Rattle.cmap_runs.specs.Ranges.{Holds, contains, digits, last_of, runs_of};
ghost use Rattle.cmap_runs.specs.SearchLooks.{LooksAtMost};

use super::HasRange;
use super::held::{Blocks, Held};
use super::looks::Looks;

/// The last declaration that contains `code`, which comes after all blocks. A caller calls this last, and
/// so needs no registers afterwards.
#[cold]
#[inline(never)]
pub(super) fn find_after_blocks<'h, T: HasRange>(
    held: &'h Held<T>,
    blocks: &Blocks,
    code: u32,
    looks: &mut Looks,
) -> Option<&'h T>
    requires runs { held.now.runs ≡ runs_of (map T.span held.now.declarations) }
    requires blocks { AreBlocks held.now.runs blocks.now }
    requires after { 32 * length blocks.now.list.items ≤ code }
    ensures found { option_copied result ≡ last_of T.span held.now.declarations code }
    ensures contains { IfSome result
        (λ declaration. IsTrue (contains (T.span declaration.now) code)) }
    ensures looks { LooksAtMost looks.old looks.new
        (digits (length (runs_of (map T.span held.now.declarations)))) 1 (is_some result) }
    ensures no_declaration { IfNone result
        (looks.new.declarations ≡ looks.old.declarations) }
{
    let index = find_among_last(held, blocks, code, looks)?;
    Some(held.declaration(index, looks))
}

/// The index of the declaration of the run that holds `code`, by binary search. Only the runs that are
/// left after the blocks can hold the code.
fn find_among_last<T: HasRange>(
    held: &Held<T>,
    blocks: &Blocks,
    code: u32,
    looks: &mut Looks,
) -> Option<usize>
    requires order { IsInOrder held.now.runs }
    requires within { blocks.now.left ≤ length held.now.runs }
    requires before { AllWithin (λ run. run.high < code) held.now.runs 0
        (length held.now.runs - blocks.now.left) }
    ensures none { IfNone result (All (λ run. ¬ (Holds code run)) held.now.runs) }
    ensures found { IfSome result
        (λ index. Any (λ run. Holds code run × (run.index ≡ index)) held.now.runs) }
    ensures bound { looks.new.runs ≤ looks.old.runs + digits (length held.now.runs) }
    ensures grows { looks.old.runs ≤ looks.new.runs }
    ensures looked { OnSome result (looks.old.runs + 1 ≤ looks.new.runs) }
    ensures declarations { looks.new.declarations ≡ looks.old.declarations }
{
    let mut high = held.run_count();
    let mut low = high - blocks.left;
    while low < high {
        let middle = low + (high - low) / 2;
        let candidate = held.run(middle, looks);
        if code < candidate.low {
            high = middle;
        } else if candidate.high < code {
            low = middle + 1;
        } else {
            return Some(candidate.index);
        }
    }
    None
}
