//! Results on the way to the next file, by numbers.

use arrayvec::ArrayVec;

/// The names that lead to a file; at most as many as the files of a chain.
pub(crate) type Trail = ArrayVec<usize, 16>;

/// The first uses of a file, whose files are whole.
#[derive(Clone, Copy)]
pub(crate) struct FirstUses {
    /// The number of uses.
    pub(crate) count: usize,
    /// The number of files in the longest chain of these uses.
    pub(crate) highest: u8,
    /// The number of bytes that are opened for these uses, if there is a budget.
    pub(crate) cost: u64,
}

/// No uses.
pub(crate) const NO_USES: FirstUses = FirstUses {
    count: 0,
    highest: 0,
    cost: 0,
};

/// The first use in a file that can't be passed over: the file of the use isn't known to be whole,
/// makes the chain too long, or would exceed the budget.
#[derive(Clone, Copy)]
pub(crate) struct Stuck {
    /// The uses before the use that can't be passed over.
    pub(crate) before: FirstUses,
    pub(crate) name: usize,
    /// The index of the file of the name.
    pub(crate) found: Option<usize>,
    /// What is left of the budget before the file.
    pub(crate) left: Option<u64>,
}

/// What is known of the uses of a file, in order.
#[derive(Clone, Copy)]
pub(crate) enum Passed {
    /// All uses can be passed over: the number of files in their longest chain, and the rest of the
    /// budget.
    All(u8, Option<u64>),
    Stuck(Stuck),
}

/// What is known of a file.
#[derive(Clone, Copy)]
pub(crate) enum Look {
    /// The file is whole: the number of files in its longest chain, and the rest of the budget.
    Whole(u8, Option<u64>),
    /// The file has more bytes than are left of the budget.
    OverBudget,
    Stuck(Stuck),
}

/// A file that is wanted.
#[derive(Drop)]
pub(crate) struct Wanted {
    /// The names that lead to the file, its own name last.
    pub(crate) names: Trail,
    /// The name of the file.
    pub(crate) name: usize,
    /// What is left of the budget before the file.
    pub(crate) left: Option<u64>,
}

/// What is known of all files.
#[derive(Drop)]
pub(crate) enum Step {
    /// The file at this index is whole: the number of files in its longest chain, and the number of
    /// bytes that are opened for it.
    Whole(usize, u8, u64),
    /// The file at this index uses the wanted file, after these first uses.
    Wanted(usize, FirstUses, Wanted),
    /// The chain of these names is too long.
    TooLong(Trail),
    /// The file that these names lead to has more bytes than are left of the budget.
    OverBudget(Trail),
}

/// The state of all files: whole, or one file is wanted or at fault.
#[derive(Drop)]
pub(crate) enum Next {
    Whole,
    Wanted(Wanted),
    /// The chain of these names is too long.
    TooLong(Trail),
    /// The file that these names lead to has more bytes than are left of the budget.
    OverBudget(Trail),
}
