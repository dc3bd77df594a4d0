//! The files that were read, each once.

ghost use Rattle.std.specs.Prelude.{◌≡◌, ◌⊎◌, ◌++◌, ◌<◌, ◌∷◌, [], ℕ, IfOk, List, MatchOption, OnErr, OnOk, Some, length, slice_get, slice_set};
ghost use Rattle.cmap_load.specs.Graphs.{AreNamed, IsBegun, IsNext, IsWhole};
ghost use Rattle.cmap_layers.specs.Layers.{layer_of};
ghost use Rattle.cmap_values.specs.ListsAppended.{no_file};
ghost use Rattle.cmap_load.specs.Tables.{Grows, IsEmpty, IsNew, IsPushed, IsTable, LayersFrom, contents_layer};
ghost use Rattle.cmap_load.specs.declared.table.Contents.{Contents};

use crate::graph::{Graph, Next, Node};
use cmap_layers::layer::Layer;
use cmap_layers::layers::Layers;
use cmap_values::declarations::Lists;
use cmap_values::metadata::Metadata;
use std::alloc::{AllocError, Global};
use std::mem;

/// The contents of a file apart from its uses.
#[derive(Drop)]
pub(crate) struct Contents {
    pub(crate) metadata: Metadata,
    pub(crate) lists: Lists,
}

/// The files that were read. The same index holds the contents of a file, and its node in the
/// graph.
#[derive(Drop)]
pub(crate) struct Table {
    pub(crate) graph: Graph,
    pub(crate) contents: Vec<Contents>,
}

impl Table {
    /// A table without files.
    pub(crate) fn new(alloc: Global, budget: Option<u64>) -> Self
        ensures { IsEmpty budget result }
    {
        Table {
            graph: Graph::new(alloc, budget),
            contents: Vec::new(alloc),
        }
    }

    /// Adds the file of a name that has no file, or the top file, which has no name.
    pub(crate) fn push(
        &mut self,
        name: Option<usize>,
        node: Node,
        contents: Contents,
    ) -> Result<(), AllocError>
        requires table { IsTable self.old }
        requires new { IsNew self.old.graph name }
        requires named { AreNamed self.old.graph node.uses.items }
        ensures table { IsTable self.new }
        ensures grows { OnErr result (Grows self.old self.new) }
        ensures same { OnErr result (self.new.graph.found ≡ self.old.graph.found) }
        ensures heights { OnOk result (self.new.graph.heights.items
            ≡ self.old.graph.heights.items ++ 17 ∷ []) }
        ensures nodes { OnOk result (self.new.graph.nodes.items
            ≡ self.old.graph.nodes.items ++ node ∷ []) }
        ensures contents { OnOk result (self.new.contents.items
            ≡ self.old.contents.items ++ contents ∷ []) }
        ensures found { OnOk result (MatchOption name
            (self.new.graph.found ≡ self.old.graph.found)
            (λ name. self.new.graph.found.items
            ≡ slice_set self.old.graph.found.items name (Some (length self.old.graph.nodes.items)))) }
        ensures budget { self.new.graph.budget ≡ self.old.graph.budget }
    {
        self.contents.reserve(1)?;
        self.graph.add(name, node)?;
        self.contents.push_reserved(contents);
        Ok(())
    }

    /// Adds the file of a name, or the top file, which has no name, and goes on.
    pub(crate) fn take(
        &mut self,
        name: Option<usize>,
        node: Node,
        contents: Contents,
    ) -> Result<Next, AllocError>
        requires table { IsTable self.old }
        requires new { IsNew self.old.graph name }
        requires named { AreNamed self.old.graph node.uses.items }
        requires begun { (self.old.graph.nodes.items ≡ []) ⊎ IsBegun self.old.graph }
        ensures table { IsTable self.new }
        ensures grows { OnErr result (Grows self.old self.new) }
        ensures same { OnErr result (self.new.graph.found ≡ self.old.graph.found) }
        ensures begun { OnOk result (IsBegun self.new.graph) }
        ensures pushed { OnOk result (IsPushed self.old self.new name node contents) }
        ensures next { IfOk result (IsNext self.new.graph) }
    {
        self.push(name, node, contents)?;
        Ok(self.graph.advance())
    }

    /// The layers of the top file. The lists of each file are moved into its layer.
    pub(crate) fn into_layers(self, alloc: Global) -> Result<Layers, AllocError>
        requires table { IsTable self }
        requires whole { (lengths : List ℕ) × IsWhole self.graph 16 0 lengths }
        ensures { IfOk result (LayersFrom self 16 0) }
    {
        let Table {
            graph,
            contents,
            ..
        } = self;
        let mut contents = contents;
        let mut layers = Vec::new(alloc);
        let mut at = 0;
        'down: loop {
            let taken = take_contents(alloc, &mut contents, at);
            let Contents { metadata, lists } = taken;
            let layer = Layer::build(alloc, metadata, lists)?;
            layers.push(layer)?;
            let Some(last) = last_use(&graph.nodes[at].uses) else {
                return Ok(Layers::of(layers));
            };
            let Some(i) = graph.found[last] else {
                unreachable!();
            };
            at = i;
        }
    }
}

/// The last name.
fn last_use(uses: &[usize]) -> Option<usize>
    ensures { MatchOption result (uses.now ≡ [])
        (λ last. (others : List ℕ) × (uses.now ≡ others ++ last ∷ [])) }
{
    match uses.split_last() {
        Some((last, _others)) => Some(*last),
        None => None,
    }
}

/// Takes the contents at an index out of the list, and leaves empty contents at the index.
pub(crate) fn take_contents(alloc: Global, contents: &mut Vec<Contents>, at: usize) -> Contents
    requires { at < length contents.old.items }
    ensures taken { slice_get contents.old.items at ≡ Some result }
    ensures left { (none : Contents) × (contents.new.items ≡ slice_set contents.old.items at none) }
{
    mem::replace(&mut contents[at], no_contents(alloc))
}

/// Contents without metadata and declarations.
pub(crate) fn no_contents(alloc: Global) -> Contents
    ensures { contents_layer result ≡ layer_of no_file }
{
    let metadata = Metadata {
        character_collection: None,
        name: None,
        writing_mode: None,
    };
    let lists = Lists::new(alloc);
    Contents { metadata, lists }
}
