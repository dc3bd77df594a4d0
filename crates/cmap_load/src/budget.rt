//! A budget for the bytes of the files that are opened.

ghost use Rattle.std.specs.Prelude.{◌≡◌, ℕ};
ghost use Rattle.std.specs.Bool.{OnFalse, OnTrue};
ghost use Rattle.cmap_load.specs.Budgets.{IsOver};
ghost use Rattle.cmap_load.specs.BytesSpent.{Leaves};
ghost use Rattle.cmap_load.specs.KnownFiles.{SpendsAgain};
ghost use Rattle.cmap_load.specs.Loading.{IsCost};

/// Takes `count` bytes from the rest of a budget, if there is one; false if fewer bytes are left.
pub(crate) fn spend(left: &mut Option<u64>, count: u64) -> bool
    ensures spent { OnTrue result (Leaves left.old count left.new) }
    ensures over { OnFalse result (IsOver left.old count × (left.new ≡ left.old)) }
{
    let Some(budget) = *left else {
        return true;
    };
    if budget < count {
        return false;
    }
    *left = Some(budget - count);
    true
}

/// Takes `spent` bytes from the rest of a budget; false if fewer bytes are left, or if `spent` is
/// `None`. Without a budget, nothing is taken, and the answer is true.
pub(crate) fn spend_again(left: &mut Option<u64>, spent: Option<u64>) -> bool
    ensures spent { OnTrue result (SpendsAgain spent left.old left.new) }
    ensures same { OnFalse result (left.new ≡ left.old) }
{
    let Some(budget) = *left else {
        return true;
    };
    match spent {
        Some(spent) if spent <= budget => {
            *left = Some(budget - spent);
            true
        }
        _ => false,
    }
}

/// How many bytes were taken from a budget; 0 without a budget.
pub(crate) fn spent(before: Option<u64>, after: Option<u64>) -> u64
    ensures { (count : ℕ) → Leaves before count after → IsCost before count result }
{
    match (before, after) {
        (Some(before), Some(after)) => before.saturating_sub(after),
        _ => 0,
    }
}
