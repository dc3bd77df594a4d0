//! A list of faults, in which the faults of each file stand once.

ghost use Rattle.std.specs.Prelude.{◌≡◌, ◌∷◌, ◌++◌, ◌&&◌, ◌||◌, ℕ, IfOk, None, [], OnOk, false, map};
ghost use Rattle.std.specs.List.{last_or};
ghost use Rattle.cmap_load.specs.Salvage.{is_same_kind};
ghost use Rattle.cmap_load.specs.SalvageSeen.{AddsFaults, found_of, has_kind, is_last, is_marked, is_marked_last};
ghost use Rattle.cmap_load.specs.declared.refusal.Cause.{Cause};
ghost use Rattle.cmap_load.specs.declared.refusal.Cause.TheVariants.{Malformed};

use crate::refusal::Cause;
use cmap_layers::lists::put_last;
use cmap_values::fault::Stop;
use std::alloc::{AllocError, Global};
use std::collections::BTreeMap;

/// The kinds of faults that a file has.
#[derive(Clone, Copy)]
pub(crate) struct Kinds {
    malformed: bool,
    no_file: bool,
    chain_length: bool,
    over_budget: bool,
}

/// No kinds.
const NO_KINDS: Kinds = Kinds {
    malformed: false,
    no_file: false,
    chain_length: false,
    over_budget: false,
};

impl Kinds {
    fn has(&self, cause: Cause) -> bool
        ensures { result ≡ has_kind self.now cause }
    {
        match cause {
            Cause::Malformed(_) => self.malformed,
            Cause::NoFile => self.no_file,
            Cause::ChainLength => self.chain_length,
            Cause::OverBudget => self.over_budget,
        }
    }

    fn add(&mut self, cause: Cause)
        ensures { (other : Cause) → has_kind self.new other
            ≡ (is_same_kind other cause || has_kind self.old other) }
    {
        match cause {
            Cause::Malformed(_) => self.malformed = true,
            Cause::NoFile => self.no_file = true,
            Cause::ChainLength => self.chain_length = true,
            Cause::OverBudget => self.over_budget = true,
        }
    }
}

/// A fault: the numbers of the names that lead to its file, and the cause.
#[derive(Drop)]
pub(crate) struct FoundFault {
    pub(crate) names: Vec<usize>,
    pub(crate) cause: Cause,
}

impl FoundFault {
    pub(crate) fn new(alloc: Global, names: &[usize], cause: Cause) -> Result<Self, AllocError>
        ensures { IfOk result (λ fault. (fault.names.items ≡ names.now) × (fault.cause ≡ cause)) }
    {
        let names = Vec::from_slice(alloc, names)?;
        Ok(FoundFault { names, cause })
    }
}

/// The faults of files.
#[derive(Drop)]
pub(crate) struct Faults {
    pub(crate) list: Vec<FoundFault>,
    /// The kinds of the listed faults, by the number of the last name. The top file has no name, and
    /// is read once.
    pub(crate) kinds: BTreeMap<usize, Kinds>,
}

impl Faults {
    pub(crate) fn new(alloc: Global) -> Self
        ensures none { result.list.items ≡ [] }
        ensures marked { (number : ℕ) (cause : Cause) → is_marked result number cause ≡ false }
    {
        Faults {
            list: Vec::new(alloc),
            kinds: BTreeMap::new(alloc),
        }
    }

    /// Adds a fault of the file that the names lead to, unless the list has a fault of this file
    /// and this kind already.
    pub(crate) fn add(
        &mut self,
        alloc: Global,
        names: &[usize],
        cause: Cause,
    ) -> Result<(), AllocError>
        ensures { OnOk result (AddsFaults self.old self.new names.now (cause ∷ [])) }
    {
        if self.has(names, cause) {
            return Ok(());
        }
        put_last(FoundFault::new(alloc, names, cause), &mut self.list)?;
        self.mark(names, cause)
    }

    /// Adds the faults of the file that the names lead to, unless they were added already.
    pub(crate) fn add_stops(
        &mut self,
        alloc: Global,
        names: &[usize],
        stops: &[Stop],
    ) -> Result<(), AllocError>
        ensures { OnOk result (AddsFaults self.old self.new names.now (map Malformed stops.now)) }
    {
        let Some(first) = stops.first() else {
            return Ok(());
        };
        let kind = Cause::Malformed(*first);
        if self.has(names, kind) {
            return Ok(());
        }
        self.put_stops(alloc, names, stops)?;
        self.mark(names, kind)
    }

    fn put_stops(
        &mut self,
        alloc: Global,
        names: &[usize],
        stops: &[Stop],
    ) -> Result<(), AllocError>
        ensures added { OnOk result (map found_of self.new.list.items
            ≡ map found_of self.old.list.items
            ++ map (λ stop. record { names = names.now; cause = Malformed stop }) stops.now) }
        ensures same { OnOk result (self.new.kinds ≡ self.old.kinds) }
    {
        for stop in stops {
            let fault = FoundFault::new(alloc, names, Cause::Malformed(*stop));
            put_last(fault, &mut self.list)?;
        }
        Ok(())
    }

    /// Whether the file that the names lead to has a fault of this kind.
    fn has(&self, names: &[usize], cause: Cause) -> bool
        ensures { result ≡ is_marked_last self.now (last_or None names.now) cause }
    {
        match names.last() {
            Some(name) => self.kinds_of(*name).has(cause),
            None => false,
        }
    }

    fn mark(&mut self, names: &[usize], cause: Cause) -> Result<(), AllocError>
        ensures marked { OnOk result ((number : ℕ) (other : Cause) → is_marked self.new number other
            ≡ (is_last number (last_or None names.now) && is_same_kind other cause
            || is_marked self.old number other)) }
        ensures same { self.new.list ≡ self.old.list }
    {
        let Some(name) = names.last() else {
            return Ok(());
        };
        let mut kinds = self.kinds_of(*name);
        kinds.add(cause);
        match self.kinds.insert(*name, kinds) {
            Ok(_) => Ok(()),
            Err(_) => Err(AllocError),
        }
    }

    fn kinds_of(&self, name: usize) -> Kinds
        ensures { (cause : Cause) → has_kind result cause ≡ is_marked self.now name cause }
    {
        match self.kinds.get(&name) {
            Some(kinds) => *kinds,
            None => NO_KINDS,
        }
    }
}
