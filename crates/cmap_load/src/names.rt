//! Lists of names, in which each name has a number.

ghost use Rattle.std.specs.Prelude.{◌≡◌, ◌++◌, ◌<◌, ◌∷◌, [], ℕ, IfOk, List, None, OnErr, OnOk, Some, bytes_eq, if◌then◌else◌, length};
ghost use Rattle.cmap_load.specs.Numbers.{AreDistinct, IsNumbered, text_at};

use cmap_values::memory::both;
use std::alloc::{AllocError, Global};
use std::collections::BTreeMap;

/// A list of names. The number of a name is its index.
pub trait Texts {
    /// The texts of the names.
    ghost texts: { Self → List (List ℕ) };

    /// The name of a number.
    fn text(&self, number: usize) -> &[u8]
        requires { number < length (texts self.now) }
        ensures { result.now ≡ text_at (texts self.now) number };
}

/// A list to which names are added. A name is a slice of bytes that live for `'d`; a list keeps the
/// slice, or copies the bytes.
pub trait Names<'d>: Texts + Sized + Drop {
    /// The number of each name is found.
    ghost are_numbered: { Self → Type 0 };

    /// No names.
    fn new(alloc: Global) -> Self
        ensures numbered { are_numbered result }
        ensures texts { Self.texts result ≡ [] };

    /// The number of a name. A new name is added to the list.
    fn number(&mut self, name: &'d [u8]) -> Result<usize, AllocError>
        requires { are_numbered self.old }
        ensures numbered { are_numbered self.new }
        ensures distinct { AreDistinct (Self.texts self.old) → AreDistinct (Self.texts self.new) }
        ensures number { IfOk result (IsNumbered (Self.texts self.old) (Self.texts self.new) name.now) }
        ensures same { OnErr result (Self.texts self.new ≡ Self.texts self.old) };
}

/// Names as slices.
#[derive(Drop)]
pub struct NameSlices<'a> {
    numbers: BTreeMap<&'a [u8], usize>,
    pub(crate) texts: Vec<&'a [u8]>,
}

impl<'a> NameSlices<'a> {
    ghost use Rattle.cmap_load.specs.NameLists.{AreNumbered, number_of};

    /// The number of a name; `None` if the name has no number.
    fn find(&self, name: &[u8]) -> Option<usize>
        ensures { result ≡ number_of self.now name.now }
    {
        self.numbers.get(name).copied()
    }

    /// Adds a name that has no number.
    fn add(&mut self, name: &'a [u8]) -> Result<(), AllocError>
        requires numbered { AreNumbered self.old }
        requires new { number_of self.old name.now ≡ None }
        ensures numbered { AreNumbered self.new }
        ensures texts { OnOk result (self.new.texts.items ≡ self.old.texts.items ++ name.entry ∷ []) }
        ensures same { OnErr result (self.new.texts.items ≡ self.old.texts.items) }
    {
        let number = self.texts.len();
        self.texts.reserve(1)?;
        self.insert(name, number)?;
        self.texts.push_reserved(name);
        Ok(())
    }

    /// Notes the number of a name.
    fn insert(&mut self, name: &'a [u8], number: usize) -> Result<(), AllocError>
        ensures numbers { OnOk result ((other : List ℕ) → number_of self.new other
            ≡ (if bytes_eq name.now other then Some number else number_of self.old other)) }
        ensures same { OnErr result
            ((other : List ℕ) → number_of self.new other ≡ number_of self.old other) }
        ensures texts { self.new.texts ≡ self.old.texts }
    {
        match self.numbers.insert(name, number) {
            Ok(_) => Ok(()),
            Err(_) => Err(AllocError),
        }
    }
}

impl<'a> Texts for NameSlices<'a> {
    ghost use Rattle.cmap_load.specs.NameLists.{texts_of};

    ghost texts = { texts_of };

    fn text(&self, number: usize) -> &[u8] {
        self.texts[number]
    }
}

impl<'a> Names<'a> for NameSlices<'a> {
    ghost use Rattle.cmap_load.specs.NameLists.{AreNumbered, texts_of};

    ghost are_numbered = { AreNumbered };

    fn new(alloc: Global) -> Self {
        NameSlices {
            numbers: BTreeMap::new(alloc),
            texts: Vec::new(alloc),
        }
    }

    fn number(&mut self, name: &'a [u8]) -> Result<usize, AllocError> {
        if let Some(number) = self.find(name) {
            return Ok(number);
        }
        let number = self.texts.len();
        self.add(name)?;
        Ok(number)
    }
}

/// Copies of names.
#[derive(Drop)]
pub struct NameCopies {
    alloc: Global,
    numbers: BTreeMap<Vec<u8>, usize>,
    texts: Vec<Vec<u8>>,
}

impl NameCopies {
    ghost use Rattle.cmap_load.specs.NameCopies.{AreNumbered, number_of, texts_of};

    /// The number of a name; `None` if the name has no number.
    fn find(&self, name: &[u8]) -> Option<usize>
        ensures { result ≡ number_of self.now name.now }
    {
        self.numbers.get(name).copied()
    }

    /// Adds a name that has no number.
    fn add(&mut self, name: &[u8]) -> Result<(), AllocError>
        requires numbered { AreNumbered self.old }
        requires new { number_of self.old name.now ≡ None }
        ensures numbered { AreNumbered self.new }
        ensures texts { OnOk result (texts_of self.new ≡ texts_of self.old ++ name.now ∷ []) }
        ensures same { OnErr result (texts_of self.new ≡ texts_of self.old) }
    {
        let number = self.texts.len();
        let (key, text) = both(
            Vec::from_slice(self.alloc, name),
            Vec::from_slice(self.alloc, name),
        )?;
        self.texts.reserve(1)?;
        self.insert(key, number)?;
        self.texts.push_reserved(text);
        Ok(())
    }

    /// Notes the number of a name.
    fn insert(&mut self, name: Vec<u8>, number: usize) -> Result<(), AllocError>
        ensures numbers { OnOk result ((other : List ℕ) → number_of self.new other
            ≡ (if bytes_eq name.items other then Some number else number_of self.old other)) }
        ensures same { OnErr result
            ((other : List ℕ) → number_of self.new other ≡ number_of self.old other) }
        ensures texts { self.new.texts ≡ self.old.texts }
    {
        let _earlier = self.numbers.insert(name, number)?;
        Ok(())
    }
}

impl Texts for NameCopies {
    ghost use Rattle.cmap_load.specs.NameCopies.{texts_of};

    ghost texts = { texts_of };

    fn text(&self, number: usize) -> &[u8] {
        &self.texts[number]
    }
}

impl<'d> Names<'d> for NameCopies {
    ghost use Rattle.cmap_load.specs.NameCopies.{AreNumbered, texts_of};

    ghost are_numbered = { AreNumbered };

    fn new(alloc: Global) -> Self {
        NameCopies {
            alloc,
            numbers: BTreeMap::new(alloc),
            texts: Vec::new(alloc),
        }
    }

    fn number(&mut self, name: &'d [u8]) -> Result<usize, AllocError> {
        if let Some(number) = self.find(name) {
            return Ok(number);
        }
        let number = self.texts.len();
        self.add(name)?;
        Ok(number)
    }
}
