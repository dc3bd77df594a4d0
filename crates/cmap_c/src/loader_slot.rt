//! The pointer to a loader in a handle of C.

ghost use Rattle.std.specs.Prelude.{◌≡◌, Option, None, Some, IsSome};
ghost use Rattle.std.specs.Coded.{coded_option};
ghost use Rattle.cmap_c.specs.HeldLoader.{either_loader};
ghost use Rattle.cmap_c.specs.declared.either_loader.EitherLoader.{EitherLoader};

use crate::file_loader::FileLoader;
use cmap_handles::loose::Loose;
use std::alloc::Global;
use std::marker::Model;

/// A pointer to a loader, or to none.
#[repr(C)]
#[derive(Drop)]
pub struct LoaderSlot {
    at: *mut u8,
    alloc: Global,
    /// The loader.
    pub ghost loader: { Option EitherLoader } by { coded_option either_loader.coded },
}

impl Model for LoaderSlot {
    ghost use Rattle.cmap_handles.specs.Held.{held};
    ghost use Rattle.cmap_c.specs.LoaderRow.{held_loader};

    ghost also_owns = { λ slot. held held_loader slot.alloc slot.at slot.loader };
}

/// A slot may go to another thread, since one handle alone has the loader.
unsafe impl Send for LoaderSlot {}

impl LoaderSlot {
    /// No loader.
    pub(crate) fn empty(alloc: Global) -> LoaderSlot
        ensures { result.loader ≡ None }
    {
        LoaderSlot {
            at: std::ptr::null_mut(),
            alloc,
        }
    }

    /// A pointer that owns this loader.
    pub(crate) fn of_loose(loose: Loose<FileLoader, Global>) -> LoaderSlot
        ensures { result.loader ≡ Some loose.value }
    {
        let Loose { at, alloc } = loose;
        LoaderSlot {
            at: at as *mut u8,
            alloc,
        }
    }

    /// The loader, which the pointer then no longer owns.
    pub(crate) fn into_loose(self) -> Loose<FileLoader, Global>
        requires { IsSome self.loader }
        ensures { Some result.value ≡ self.loader }
    {
        let LoaderSlot { at, alloc } = self;
        Loose {
            at: at as *mut FileLoader,
            alloc,
        }
    }
}
