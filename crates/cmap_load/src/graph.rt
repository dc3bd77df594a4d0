//! Files that use each other, by numbers: which files are known to be whole, and which file is
//! wanted next.

ghost use Rattle.std.specs.Prelude.{◌≡◌, ◌++◌, ◌<◌, ◌≤◌, ◌∷◌, [], ⊤, MatchOption, None, OnErr, OnOk, Some, length, slice_get, slice_set};
ghost use Rattle.std.specs.Vec.{vec_capacity, vec_len};
ghost use Rattle.cmap_load.specs.Graphs.{AreFirst, AreNamed, IsBegun, IsGraph, IsKept, IsLook, IsNext, IsPassed, IsPassedOver, IsStep, IsStuck};
ghost use Rattle.cmap_load.specs.Loading.{IsLeft};
ghost use Rattle.cmap_load.specs.Tables.{IsNew};
ghost use Rattle.cmap_load.specs.declared.graph.Node.{Node};

mod step;

use crate::budget::{spend, spent};
use crate::chain::MOST_FILES;
pub(crate) use crate::graph::step::{Next, Trail, Wanted};
use crate::graph::step::{FirstUses, Look, NO_USES, Passed, Step, Stuck};
use arrayvec::ArrayVec;
use std::alloc::{AllocError, Global};

/// The height of a file that isn't known to be whole: more files than may stand in a chain.
const UNKNOWN: u8 = 17;

/// A file: its length in bytes, and the numbers of the names that it uses, in order.
#[derive(Drop)]
pub(crate) struct Node {
    pub(crate) length: u64,
    pub(crate) uses: Vec<usize>,
}

/// Files that use each other. The file at index 0 is the top file.
#[derive(Drop)]
pub(crate) struct Graph {
    /// The most bytes that are opened together; `None` is no budget.
    pub(crate) budget: Option<u64>,
    /// The index of the file of each name; `None` if the name has no file yet.
    pub(crate) found: Vec<Option<usize>>,
    pub(crate) nodes: Vec<Node>,
    /// The number of files in the longest chain of each file; `UNKNOWN` if it isn't known.
    pub(crate) heights: Vec<u8>,
    /// The number of bytes that are opened for each file, each use counted, if the height is known
    /// and there is a budget.
    pub(crate) costs: Vec<u64>,
    /// The uses of each file that are known to be whole.
    pub(crate) firsts: Vec<FirstUses>,
}

impl Graph {
    /// A graph without files.
    pub(crate) fn new(alloc: Global, budget: Option<u64>) -> Self
        ensures graph { IsGraph result }
        ensures budget { result.budget ≡ budget }
        ensures found { result.found.items ≡ [] }
        ensures nodes { result.nodes.items ≡ [] }
    {
        Graph {
            budget,
            found: Vec::new(alloc),
            nodes: Vec::new(alloc),
            heights: Vec::new(alloc),
            costs: Vec::new(alloc),
            firsts: Vec::new(alloc),
        }
    }

    /// Makes memory for a name.
    pub(crate) fn reserve_name(&mut self) -> Result<(), AllocError>
        ensures kept { IsKept self.old self.new }
        ensures found { self.new.found.items ≡ self.old.found.items }
        ensures reserved { OnOk result (vec_len self.new.found < vec_capacity self.new.found) }
    {
        self.found.reserve(1)?;
        Ok(())
    }

    /// Adds a name without a file. Memory was made for it.
    pub(crate) fn add_name(&mut self)
        requires reserved { vec_len self.old.found < vec_capacity self.old.found }
        ensures kept { IsKept self.old self.new }
        ensures found { self.new.found.items ≡ self.old.found.items ++ None ∷ [] }
    {
        self.found.push_reserved(None);
    }

    /// Adds the file of a name that has no file, or the top file, which has no name.
    pub(crate) fn add(&mut self, name: Option<usize>, node: Node) -> Result<(), AllocError>
        requires graph { IsGraph self.old }
        requires new { IsNew self.old name }
        requires named { AreNamed self.old node.uses.items }
        ensures graph { IsGraph self.new }
        ensures kept { OnErr result (IsKept self.old self.new) }
        ensures same { OnErr result (self.new.found ≡ self.old.found) }
        ensures found { OnOk result (MatchOption name (self.new.found ≡ self.old.found)
            (λ name. self.new.found.items
            ≡ slice_set self.old.found.items name (Some (length self.old.nodes.items)))) }
        ensures nodes { OnOk result (self.new.nodes.items ≡ self.old.nodes.items ++ node ∷ []) }
        ensures heights { OnOk result (self.new.heights.items ≡ self.old.heights.items ++ 17 ∷ []) }
        ensures budget { self.new.budget ≡ self.old.budget }
    {
        let index = self.nodes.len();
        self.push(node)?;
        let Some(name) = name else {
            return Ok(());
        };
        self.found[name] = Some(index);
        Ok(())
    }

    /// Adds a file of which nothing is known.
    fn push(&mut self, node: Node) -> Result<(), AllocError>
        ensures kept { OnErr result (IsKept self.old self.new) }
        ensures nodes { OnOk result (self.new.nodes.items ≡ self.old.nodes.items ++ node ∷ []) }
        ensures heights { OnOk result (self.new.heights.items ≡ self.old.heights.items ++ 17 ∷ []) }
        ensures costs { OnOk result (self.new.costs.items ≡ self.old.costs.items ++ 0 ∷ []) }
        ensures firsts { OnOk result (self.new.firsts.items ≡ self.old.firsts.items
            ++ record { count = 0; highest = 0; cost = 0 } ∷ []) }
        ensures found { self.new.found ≡ self.old.found }
        ensures budget { self.new.budget ≡ self.old.budget }
    {
        self.nodes.reserve(1)?;
        self.heights.reserve(1)?;
        self.costs.reserve(1)?;
        self.firsts.reserve(1)?;
        self.nodes.push_reserved(node);
        self.heights.push_reserved(UNKNOWN);
        self.costs.push_reserved(0);
        self.firsts.push_reserved(NO_USES);
        Ok(())
    }

    /// Passes over a use of the found file, if the file is whole, at most `room` files stand in its
    /// longest chain, and the budget suffices. Returns the number of files in this chain; `None` if
    /// the use isn't passed over.
    fn pass_over(&self, found: Option<usize>, room: u8, left: &mut Option<u64>) -> Option<u8>
        requires graph { IsGraph self.now }
        requires room { room < 16 }
        requires found { MatchOption found ⊤ (λ i. i < length self.now.nodes.items) }
        requires left { IsLeft self.now.budget left.old }
        ensures { MatchOption result (IsStuck self.now room left.old found × (left.new ≡ left.old))
            (λ height. (height ≤ room) × IsPassedOver self.now found height left.old left.new) }
    {
        let i = found?;
        let height = self.heights[i];
        if height <= room && spend(left, self.costs[i]) {
            Some(height)
        } else {
            None
        }
    }

    /// Passes over uses in order, as far as their files are known to be whole. At most `room` files
    /// may stand in the chain of a use, its own file counted.
    fn pass(&self, uses: &[usize], room: u8, left: Option<u64>) -> Passed
        requires graph { IsGraph self.now }
        requires room { room < 16 }
        requires named { AreNamed self.now uses.now }
        requires left { IsLeft self.now.budget left }
        ensures { IsPassed self.now room left uses.now result }
    {
        let mut after = left;
        let mut highest: u8 = 0;
        for (i, name) in uses.iter().enumerate() {
            let name = *name;
            let found = self.found[name];
            let Some(height) = self.pass_over(found, room, &mut after) else {
                let before = FirstUses {
                    count: i,
                    highest,
                    cost: spent(left, after),
                };
                return Passed::Stuck(Stuck {
                    before,
                    name,
                    found,
                    left: after,
                });
            };
            highest = highest.max(height);
        }
        Passed::All(highest, after)
    }

    /// The first uses of the file at an index, if at most `room` files stand in their chains and
    /// the budget suffices; else no uses.
    fn first_uses(&self, at: usize, room: u8, left: &mut Option<u64>) -> FirstUses
        requires graph { IsGraph self.now }
        requires at { at < length self.now.nodes.items }
        requires left { IsLeft self.now.budget left.old }
        ensures { (node : Node) → slice_get self.now.nodes.items at ≡ Some node
            → AreFirst self.now room node.uses.items left.old left.new result }
    {
        let firsts = self.firsts[at];
        if firsts.highest <= room && spend(left, firsts.cost) {
            firsts
        } else {
            NO_USES
        }
    }

    /// Passes over all uses of the file at an index, as `pass` does.
    fn pass_all(&self, at: usize, room: u8, left: Option<u64>) -> Passed
        requires graph { IsGraph self.now }
        requires at { at < length self.now.nodes.items }
        requires room { room < 16 }
        requires left { IsLeft self.now.budget left }
        ensures { (node : Node) → slice_get self.now.nodes.items at ≡ Some node
            → IsPassed self.now room left node.uses.items result }
    {
        let mut after = left;
        let firsts = self.first_uses(at, room, &mut after);
        let uses = &self.nodes[at].uses;
        match self.pass(&uses[firsts.count..], room, after) {
            Passed::All(highest, after) => Passed::All(highest.max(firsts.highest), after),
            Passed::Stuck(stuck) => {
                let Stuck {
                    before,
                    name,
                    found,
                    left: after,
                } = stuck;
                let before = FirstUses {
                    count: firsts.count + before.count,
                    highest: before.highest.max(firsts.highest),
                    cost: spent(left, after),
                };
                Passed::Stuck(Stuck {
                    before,
                    name,
                    found,
                    left: after,
                })
            }
        }
    }

    /// Looks at the file at an index. At most `most` files may stand in its chain, the file itself
    /// counted.
    fn look(&self, at: usize, most: u8, left: Option<u64>) -> Look
        requires graph { IsGraph self.now }
        requires most { (0 < most) × (most ≤ 16) }
        requires at { at < length self.now.nodes.items }
        requires left { IsLeft self.now.budget left }
        ensures { IsLook self.now most left at result }
    {
        let mut after = left;
        if !spend(&mut after, self.nodes[at].length) {
            return Look::OverBudget;
        }
        match self.pass_all(at, most - 1, after) {
            Passed::All(highest, after) => Look::Whole(highest + 1, after),
            Passed::Stuck(stuck) => Look::Stuck(stuck),
        }
    }

    /// The first file that is wanted or at fault, or a file that is found to be whole.
    fn walk(&self) -> Step
        requires graph { IsGraph self.now }
        requires begun { IsBegun self.now }
        ensures { IsStep self.now result }
    {
        let mut names = ArrayVec::new();
        let mut at = 0;
        let mut most = MOST_FILES;
        let mut left = self.budget;
        'down: loop {
            match self.look(at, most, left) {
                Look::Whole(height, after) => {
                    return Step::Whole(at, height, spent(left, after));
                }
                Look::OverBudget => return Step::OverBudget(names),
                Look::Stuck(stuck) => {
                    names.push(stuck.name);
                    if most == 1 {
                        return Step::TooLong(names);
                    }
                    left = stuck.left;
                    let Some(i) = stuck.found else {
                        let name = stuck.name;
                        let wanted = Wanted { names, name, left };
                        return Step::Wanted(at, stuck.before, wanted);
                    };
                    at = i;
                    most -= 1;
                }
            }
        }
    }

    /// Goes on until a file is wanted or at fault, or all files are whole.
    pub(crate) fn advance(&mut self) -> Next
        requires graph { IsGraph self.old }
        requires begun { IsBegun self.old }
        ensures graph { IsGraph self.new }
        ensures begun { IsBegun self.new }
        ensures found { self.new.found ≡ self.old.found }
        ensures nodes { self.new.nodes ≡ self.old.nodes }
        ensures budget { self.new.budget ≡ self.old.budget }
        ensures next { IsNext self.new result }
    {
        'on: loop {
            match self.walk() {
                Step::Whole(at, height, cost) => {
                    if at == 0 {
                        return Next::Whole;
                    }
                    self.heights[at] = height;
                    self.costs[at] = cost;
                }
                Step::Wanted(at, firsts, wanted) => {
                    self.firsts[at] = firsts;
                    return Next::Wanted(wanted);
                }
                Step::TooLong(names) => return Next::TooLong(names),
                Step::OverBudget(names) => return Next::OverBudget(names),
            }
        }
    }
}
