//! Loaders that C holds.

ghost use Rattle.std.specs.Prelude.{◌≡◌, IfOk, IfSome, IsSome, IsSomeAnd, None, Some, MatchOption, MatchResult, is_some, option_map, true};
ghost use Rattle.cmap_c.specs.Loaders.{AreAsked, IsAsked, WantsNone, name_wanted, reads_past};
ghost use Rattle.cmap_handles.specs.Statuses.{number};
ghost use Rattle.cmap_handles.specs.declared.status.Status.TheVariants.{Done, NoMemory};

use crate::file_loader::FileLoader;
use crate::loader_slot::LoaderSlot;
use cmap_handles::loose::Loose;
use cmap_handles::status::Status;
use std::alloc::{AllocError, Global};
use std::mem;

/// A loader that C holds, or none. An empty handle is all zero bytes.
#[repr(C)]
#[derive(Drop)]
pub struct LoaderHandle {
    full: bool,
    /// The loader, behind a pointer.
    pub slot: LoaderSlot,
    ghost agrees: { full ≡ is_some slot.loader },
}

impl LoaderHandle {
    /// A handle without a loader.
    fn empty(alloc: Global) -> LoaderHandle
        ensures { result.slot.loader ≡ None }
    {
        LoaderHandle {
            full: false,
            slot: LoaderSlot::empty(alloc),
        }
    }

    /// The loader, if there is one. The handle is empty then.
    pub(crate) fn take(&mut self, alloc: Global) -> Option<Box<FileLoader>>
        ensures taken { option_map (λ held. held.value) result ≡ self.old.slot.loader }
        ensures left { self.new.slot.loader ≡ None }
    {
        let LoaderHandle { full, slot } = mem::replace(self, LoaderHandle::empty(alloc));
        if full {
            Some(slot.into_loose().into_box())
        } else {
            None
        }
    }

    /// The loader, if there is one that wants no further file. The handle is empty then, and also if memory runs out;
    /// otherwise it keeps its loader.
    pub(crate) fn take_ready(
        &mut self,
        alloc: Global,
    ) -> Result<Option<Box<FileLoader>>, AllocError>
        ensures taken { IfOk result (λ taken. IfSome taken (λ held. IsSomeAnd self.old.slot.loader
            (λ old. IsAsked old held.value × WantsNone held.value))) }
        ensures left { MatchResult result
            (λ taken. MatchOption taken
            (AreAsked self.old.slot.loader self.new.slot.loader
            × IfSome self.new.slot.loader (λ held. IsSome (name_wanted held)))
            (λ _. self.new.slot.loader ≡ None))
            (λ _. IsSomeAnd self.old.slot.loader (λ old. reads_past old ≡ true)
            × (self.new.slot.loader ≡ None)) }
    {
        let Some(mut held) = self.take(alloc) else {
            return Ok(None);
        };
        if held.wants()? {
            self.put(held);
            return Ok(None);
        }
        Ok(Some(held))
    }

    /// Gives an empty handle a loader.
    pub(crate) fn put(&mut self, loader: Box<FileLoader>)
        requires { self.old.slot.loader ≡ None }
        ensures { self.new.slot.loader ≡ Some loader.value }
    {
        *self = LoaderHandle {
            full: true,
            slot: LoaderSlot::of_loose(Loose::of(loader)),
        };
    }

    /// Gives an empty handle the loader that was made, or no loader if memory ran out. The result is the number of the
    /// status.
    pub(crate) fn keep(&mut self, made: Result<Box<FileLoader>, AllocError>) -> u32
        requires { self.old.slot.loader ≡ None }
        ensures { MatchResult made
            (λ loader. (result ≡ number Done) × (self.new.slot.loader ≡ Some loader.value))
            (λ _. (result ≡ number NoMemory) × (self.new.slot.loader ≡ None)) }
    {
        match made {
            Ok(loader) => {
                self.put(loader);
                Status::Done.number()
            }
            Err(_) => Status::NoMemory.number(),
        }
    }

    /// Frees the loader, if there is one.
    pub(crate) fn clear(&mut self, alloc: Global)
        ensures { self.new.slot.loader ≡ None }
    {
        drop(self.take(alloc));
    }
}
