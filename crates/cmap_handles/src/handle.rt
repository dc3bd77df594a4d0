//! Maps that C holds.

ghost use Rattle.std.specs.Prelude.{◌≡◌, None, Some, MatchResult, is_some};
ghost use Rattle.std.specs.Option.{option_copied};
ghost use Rattle.cmap_handles.specs.Statuses.{number};
ghost use Rattle.cmap_handles.specs.declared.status.Status.TheVariants.{Done, NoMemory};

use crate::loose::Loose;
use crate::shared::Shared;
use crate::slot::MapSlot;
use crate::status::Status;
use cmap_layers::layers::Layers;
use std::alloc::{AllocError, Global};
use std::mem;

/// A map that C holds, or none. An empty handle is all zero bytes.
#[repr(C)]
#[derive(Drop)]
pub struct MapHandle {
    full: bool,
    /// The map, behind a pointer.
    pub slot: MapSlot,
    ghost agrees: { full ≡ is_some slot.map },
}

impl MapHandle {
    ghost use Rattle.std.specs.Borrow.{sem};
    ghost use Rattle.cmap_handles.specs.Lent.{RestsMap};

    /// A handle without a map.
    pub fn empty(alloc: Global) -> MapHandle
        ensures { result.slot.map ≡ None }
    {
        MapHandle {
            full: false,
            slot: MapSlot::empty(alloc),
        }
    }

    /// The map, if there is one, to share it.
    pub fn shared(&mut self) -> Option<&Shared<Layers>>
        ensures* rests { sem 𝓛 (RestsMap self.entry) }
        ensures map { option_copied result ≡ self.old.slot.map }
    {
        if self.full {
            Some(self.slot.shared())
        } else {
            None
        }
    }

    /// The map, if there is one, to look codes up in it.
    pub fn layers(&mut self) -> Option<&Layers>
        ensures* rests { sem 𝓛 (RestsMap self.entry) }
        ensures map { option_copied result ≡ self.old.slot.map }
    {
        match self.shared() {
            Some(shared) => Some(shared.value()),
            None => None,
        }
    }

    /// Gives an empty handle a map.
    pub fn put(&mut self, map: Box<Shared<Layers>>)
        requires { self.old.slot.map ≡ None }
        ensures { self.new.slot.map ≡ Some map.value }
    {
        *self = MapHandle {
            full: true,
            slot: MapSlot::of_loose(Loose::of(map)),
        };
    }

    /// Gives an empty handle the map that was made, or none where memory ran out. The result is the
    /// number of the status.
    pub fn keep(&mut self, made: Result<Box<Shared<Layers>>, AllocError>) -> u32
        requires { self.old.slot.map ≡ None }
        ensures { MatchResult made
            (λ map. (result ≡ number Done) × (self.new.slot.map ≡ Some map.value))
            (λ _. (result ≡ number NoMemory) × (self.new.slot.map ≡ None)) }
    {
        match made {
            Ok(map) => {
                self.put(map);
                Status::Done.number()
            }
            Err(_) => Status::NoMemory.number(),
        }
    }

    /// Frees the map, if there is one.
    pub fn clear(&mut self, alloc: Global)
        ensures { self.new.slot.map ≡ None }
    {
        let MapHandle { full, slot } = mem::replace(self, MapHandle::empty(alloc));
        if full {
            drop(slot.into_loose().into_box());
        }
    }
}
