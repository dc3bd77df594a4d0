//! Bundles that C holds.

ghost use Rattle.std.specs.Prelude.{◌≡◌, None, Some, MatchResult, is_some};
ghost use Rattle.std.specs.Option.{option_copied};
ghost use Rattle.cmap_handles.specs.Statuses.{number};
ghost use Rattle.cmap_handles.specs.declared.status.Status.TheVariants.{Done, NoMemory};

use crate::loose::Loose;
use crate::shared::Shared;
use crate::slot::BundleSlot;
use crate::status::Status;
use cmap_binary::OwnedBundle;
use std::alloc::{AllocError, Global};
use std::mem;

/// A bundle that C holds, or none. An empty handle is all zero bytes.
#[repr(C)]
#[derive(Drop)]
pub struct BundleHandle {
    full: bool,
    /// The bundle, behind a pointer.
    pub slot: BundleSlot,
    ghost agrees: { full ≡ is_some slot.bundle },
}

impl BundleHandle {
    ghost use Rattle.std.specs.Borrow.{sem};
    ghost use Rattle.cmap_handles.specs.Lent.{RestsBundle};

    /// A handle without a bundle.
    pub fn empty(alloc: Global) -> BundleHandle
        ensures { result.slot.bundle ≡ None }
    {
        BundleHandle {
            full: false,
            slot: BundleSlot::empty(alloc),
        }
    }

    /// The bundle, if there is one, to share it.
    pub fn shared(&mut self) -> Option<&Shared<OwnedBundle>>
        ensures* rests { sem 𝓛 (RestsBundle self.entry) }
        ensures bundle { option_copied result ≡ self.old.slot.bundle }
    {
        if self.full {
            Some(self.slot.shared())
        } else {
            None
        }
    }

    /// The bundle, if there is one, to read it.
    pub fn bundle(&mut self) -> Option<&OwnedBundle>
        ensures* rests { sem 𝓛 (RestsBundle self.entry) }
        ensures bundle { option_copied result ≡ self.old.slot.bundle }
    {
        match self.shared() {
            Some(shared) => Some(shared.value()),
            None => None,
        }
    }

    /// Gives an empty handle a bundle.
    pub fn put(&mut self, bundle: Box<Shared<OwnedBundle>>)
        requires { self.old.slot.bundle ≡ None }
        ensures { self.new.slot.bundle ≡ Some bundle.value }
    {
        *self = BundleHandle {
            full: true,
            slot: BundleSlot::of_loose(Loose::of(bundle)),
        };
    }

    /// Gives an empty handle the bundle that was made, or none where memory ran out. The result is
    /// the number of the status.
    pub fn keep(&mut self, made: Result<Box<Shared<OwnedBundle>>, AllocError>) -> u32
        requires { self.old.slot.bundle ≡ None }
        ensures { MatchResult made
            (λ bundle. (result ≡ number Done) × (self.new.slot.bundle ≡ Some bundle.value))
            (λ _. (result ≡ number NoMemory) × (self.new.slot.bundle ≡ None)) }
    {
        match made {
            Ok(bundle) => {
                self.put(bundle);
                Status::Done.number()
            }
            Err(_) => Status::NoMemory.number(),
        }
    }

    /// Frees the bundle, if there is one.
    pub fn clear(&mut self, alloc: Global)
        ensures { self.new.slot.bundle ≡ None }
    {
        let BundleHandle { full, slot } = mem::replace(self, BundleHandle::empty(alloc));
        if full {
            drop(slot.into_loose().into_box());
        }
    }
}
