//! Texts as a tree: each node is a text, and each step goes on from a text by a character.

ghost use Rattle.std.specs.Prelude.{◌≡◌, ℕ, None, OnOk, Some};
ghost use Rattle.cmap_encode.specs.TreeSeen.{PutsStep, step_of};

use std::alloc::{AllocError, Global};
use std::collections::BTreeMap;

/// The node of the empty text.
pub(crate) const EMPTY: usize = 0;

/// A step from a node by a character.
#[derive(Clone, Copy, PartialEq, Eq, PartialOrd, Ord)]
pub(crate) struct Step {
    node: usize,
    character: char,
}

/// The node to which each step leads.
#[derive(Drop)]
pub(crate) struct Tree {
    steps: BTreeMap<Step, usize>,
}

impl Tree {
    /// No steps.
    pub(crate) fn new(alloc: Global) -> Tree
        ensures { (node character : ℕ) → step_of result node character ≡ None }
    {
        Tree {
            steps: BTreeMap::new(alloc),
        }
    }

    /// The node of the text of this node followed by a character.
    pub(crate) fn step(&self, node: usize, character: char) -> Option<usize>
        ensures { result ≡ step_of self.now node character }
    {
        self.steps.get(&Step { node, character }).copied()
    }

    /// Adds a step: `next` comes after the node by the character.
    pub(crate) fn put(
        &mut self,
        node: usize,
        character: char,
        next: usize,
    ) -> Result<(), AllocError>
        ensures { OnOk result (PutsStep (step_of self.old) node character next (step_of self.new)) }
    {
        self.steps.insert(Step { node, character }, next)?;
        Ok(())
    }
}
