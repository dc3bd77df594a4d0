//! The pointers behind which C holds maps and bundles.
//!
//! An export takes no type with a parameter, so a map and a bundle have a slot each.

ghost use Rattle.std.specs.Prelude.{◌≡◌, List, Option, None, Some, IsSome};
ghost use Rattle.cmap_binary.specs.Bundles.{Bundle};
ghost use Rattle.cmap_layers.specs.Layers.{Layer};

use crate::loose::Loose;
use crate::shared::Shared;
use cmap_binary::OwnedBundle;
use cmap_layers::layers::Layers;
use std::alloc::Global;
use std::marker::Model;

/// A pointer to a map, or a null pointer.
#[repr(C)]
#[derive(Drop)]
pub struct MapSlot {
    at: *mut u8,
    alloc: Global,
    /// The layers of the map.
    pub ghost map: { Option (List Layer) },
}

impl Model for MapSlot {
    ghost use Rattle.cmap_handles.specs.Held.{held, shared_map};

    ghost also_owns = { λ slot. held shared_map slot.alloc slot.at slot.map };
}

/// A slot may go to another thread, since several threads may read a map.
unsafe impl Send for MapSlot {}

impl MapSlot {
    ghost use Rattle.std.specs.Borrow.{sem};
    ghost use Rattle.cmap_handles.specs.Lent.{LendsMap};

    /// No map.
    pub(crate) fn empty(alloc: Global) -> MapSlot
        ensures { result.map ≡ None }
    {
        MapSlot {
            at: std::ptr::null_mut(),
            alloc,
        }
    }

    /// A pointer that owns this map.
    pub(crate) fn of_loose(loose: Loose<Shared<Layers>, Global>) -> MapSlot
        ensures { result.map ≡ Some loose.value }
    {
        let Loose { at, alloc } = loose;
        MapSlot {
            at: at as *mut u8,
            alloc,
        }
    }

    /// The map.
    pub(crate) fn shared(&mut self) -> &mut Shared<Layers>
        requires { IsSome self.old.map }
        ensures* lends { sem 𝓛 (LendsMap self.entry result) }
        ensures map { Some result.now ≡ self.old.map }
    {
        unsafe { &mut *(self.at as *mut Shared<Layers>) }
    }

    /// The pointer that owns the map, in place of the slot.
    pub(crate) fn into_loose(self) -> Loose<Shared<Layers>, Global>
        requires { IsSome self.map }
        ensures { Some result.value ≡ self.map }
    {
        let MapSlot { at, alloc } = self;
        Loose {
            at: at as *mut Shared<Layers>,
            alloc,
        }
    }
}

/// A pointer to a bundle, or a null pointer.
#[repr(C)]
#[derive(Drop)]
pub struct BundleSlot {
    at: *mut u8,
    alloc: Global,
    /// The bundle.
    pub ghost bundle: { Option Bundle },
}

impl Model for BundleSlot {
    ghost use Rattle.cmap_handles.specs.Held.{held, shared_bundle};

    ghost also_owns = { λ slot. held shared_bundle slot.alloc slot.at slot.bundle };
}

/// A slot may go to another thread, since several threads may read a bundle.
unsafe impl Send for BundleSlot {}

impl BundleSlot {
    ghost use Rattle.std.specs.Borrow.{sem};
    ghost use Rattle.cmap_handles.specs.Lent.{LendsBundle};

    /// No bundle.
    pub(crate) fn empty(alloc: Global) -> BundleSlot
        ensures { result.bundle ≡ None }
    {
        BundleSlot {
            at: std::ptr::null_mut(),
            alloc,
        }
    }

    /// A pointer that owns this bundle.
    pub(crate) fn of_loose(loose: Loose<Shared<OwnedBundle>, Global>) -> BundleSlot
        ensures { result.bundle ≡ Some loose.value }
    {
        let Loose { at, alloc } = loose;
        BundleSlot {
            at: at as *mut u8,
            alloc,
        }
    }

    /// The bundle.
    pub(crate) fn shared(&mut self) -> &mut Shared<OwnedBundle>
        requires { IsSome self.old.bundle }
        ensures* lends { sem 𝓛 (LendsBundle self.entry result) }
        ensures bundle { Some result.now ≡ self.old.bundle }
    {
        unsafe { &mut *(self.at as *mut Shared<OwnedBundle>) }
    }

    /// The pointer that owns the bundle, in place of the slot.
    pub(crate) fn into_loose(self) -> Loose<Shared<OwnedBundle>, Global>
        requires { IsSome self.bundle }
        ensures { Some result.value ≡ self.bundle }
    {
        let BundleSlot { at, alloc } = self;
        Loose {
            at: at as *mut Shared<OwnedBundle>,
            alloc,
        }
    }
}
