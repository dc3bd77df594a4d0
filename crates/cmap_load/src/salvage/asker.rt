//! The order in which files are wanted, also after a file that exceeded the budget.

ghost use Rattle.std.specs.Prelude.{◌≡◌, ◌+◌, ◌<◌, IfSome, None, Some, length, slice_get};
ghost use Rattle.cmap_load.specs.Asks.{IsAsked};
ghost use Rattle.cmap_load.specs.Kept.{IsWanted};

use crate::budget::spend;
use crate::graph::Graph;
use crate::salvage::kept::exceeds;
use crate::salvage::walk::Unread;
use arrayvec::ArrayVec;
use std::collections::BTreeMap;

/// The most uses that are looked at, which no run reaches.
const MOST_STEPS: u64 = u64::MAX;

/// A file on the way to a use, and the number of the uses that were looked at.
#[derive(Clone, Copy, Default)]
pub(crate) struct Frame {
    at: usize,
    looked: usize,
}

/// What follows a look at a use.
#[derive(Clone, Copy)]
pub(crate) enum Asked {
    /// A further use.
    Further,
    /// The file of a name is wanted.
    Wanted(Unread),
    /// No further file is opened.
    Nothing,
}

/// Opens files as a reader past faults does, and stops at each name whose file is wanted. It asks for
/// files in the right order; what the files give is found by a walk over all of them.
#[derive(Drop)]
pub(crate) struct Asker {
    /// The files from the top file to the file of the next use.
    frames: ArrayVec<Frame, 16>,
    /// The rest of the budget.
    left: Option<u64>,
}

impl Asker {
    /// Before the first use of a top file of `length` bytes.
    pub(crate) fn new(budget: Option<u64>, length: u64) -> Self {
        let mut left = budget;
        spend(&mut left, length);
        let mut frames = ArrayVec::new();
        frames.push(Frame { at: 0, looked: 0 });
        Asker { frames, left }
    }

    /// The next name whose file is wanted; `None` if no further file is opened.
    pub(crate) fn next(&mut self, graph: &Graph, too_long: &BTreeMap<usize, u64>) -> Option<Unread>
        ensures { IfSome result (IsWanted graph.now) }
    {
        for _ in 0..MOST_STEPS {
            match self.look(graph, too_long) {
                Asked::Further => {}
                Asked::Wanted(unread) => return Some(unread),
                Asked::Nothing => return None,
            }
        }
        None
    }

    /// Looks at the next use. After the last use of a file, the file that uses it goes on.
    fn look(&mut self, graph: &Graph, too_long: &BTreeMap<usize, u64>) -> Asked
        ensures { IsAsked graph.now result }
    {
        let Some(frame) = self.frames.pop() else {
            return Asked::Nothing;
        };
        let Some(node) = graph.nodes.get(frame.at) else {
            return Asked::Nothing;
        };
        let Some(name) = node.uses.get(frame.looked) else {
            return Asked::Further;
        };
        // The chain would be too long.
        if self.frames.len() >= 15 {
            self.frames.clear();
            return Asked::Nothing;
        }
        let Some(found) = graph.found.get(*name) else {
            return Asked::Nothing;
        };
        let Some(at) = *found else {
            return self.look_at_missing(*name, frame, graph, too_long);
        };
        self.open(at, frame, graph);
        Asked::Further
    }

    /// Passes over a use of a name without a file if the file exceeds the budget; else the file is
    /// wanted.
    fn look_at_missing(
        &mut self,
        name: usize,
        frame: Frame,
        graph: &Graph,
        too_long: &BTreeMap<usize, u64>,
    ) -> Asked
        requires missing { slice_get graph.now.found.items name ≡ Some None }
        requires room { length self.old.frames.items < 15 }
        ensures { IsAsked graph.now result }
    {
        let left = self.left;
        match too_long.get(&name) {
            Some(length) if exceeds(left, *length) => {
                self.go_on(frame);
                Asked::Further
            }
            _ => {
                self.frames.push(frame);
                Asked::Wanted(Unread { name, left })
            }
        }
    }

    /// Opens a file, unless it is whole, and neither makes the chain too long nor exceeds the budget:
    /// then all that it opens is passed over.
    fn open(&mut self, at: usize, frame: Frame, graph: &Graph)
        requires { length self.old.frames.items < 15 }
    {
        let room = 15 - self.frames.len();
        self.go_on(frame);
        let (Some(height), Some(cost), Some(node)) = (
            graph.heights.get(at),
            graph.costs.get(at),
            graph.nodes.get(at),
        ) else {
            return;
        };
        if usize::from(*height) <= room && spend(&mut self.left, *cost) {
            return;
        }
        if spend(&mut self.left, node.length) {
            self.frames.push(Frame { at, looked: 0 });
        }
    }

    /// Goes on after a use.
    fn go_on(&mut self, frame: Frame)
        requires { length self.old.frames.items < 15 }
        ensures { length self.new.frames.items ≡ length self.old.frames.items + 1 }
    {
        let Frame { at, looked } = frame;
        self.frames.push(Frame {
            at,
            looked: looked.saturating_add(1),
        });
    }
}
