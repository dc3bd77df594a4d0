//! The pointer to an encoder in a handle of C.

ghost use Rattle.std.specs.Prelude.{◌≡◌, Option, None, Some, IsSome};
ghost use Rattle.std.specs.Coded.{coded_option};
ghost use Rattle.cmap_encode.specs.declared.encoder.Encoder.{Encoder};
ghost use Rattle.cmap_c_writer.specs.HeldEncoder.{shared_encoder};

use cmap_encode::Encoder;
use cmap_handles::loose::Loose;
use cmap_handles::shared::Shared;
use std::alloc::Global;
use std::marker::Model;

/// A pointer to an encoder, or to none.
#[repr(C)]
#[derive(Drop)]
pub struct EncoderSlot {
    at: *mut u8,
    alloc: Global,
    /// The encoder.
    pub ghost encoder: { Option Encoder } by { coded_option shared_encoder.coded },
}

impl Model for EncoderSlot {
    ghost use Rattle.cmap_handles.specs.Held.{held};
    ghost use Rattle.cmap_c_writer.specs.HeldEncoder.{shared_encoder};

    ghost also_owns = { λ slot. held shared_encoder slot.alloc slot.at slot.encoder };
}

/// A slot may go to another thread, since several threads may read an encoder.
unsafe impl Send for EncoderSlot {}

impl EncoderSlot {
    ghost use Rattle.std.specs.Borrow.{sem};
    ghost use Rattle.cmap_c_writer.specs.LentEncoder.{LendsEncoder};

    /// No encoder.
    pub(crate) fn empty(alloc: Global) -> EncoderSlot
        ensures { result.encoder ≡ None }
    {
        EncoderSlot {
            at: std::ptr::null_mut(),
            alloc,
        }
    }

    /// A pointer that owns this encoder.
    pub(crate) fn of_loose(loose: Loose<Shared<Encoder>, Global>) -> EncoderSlot
        ensures { result.encoder ≡ Some loose.value }
    {
        let Loose { at, alloc } = loose;
        EncoderSlot {
            at: at as *mut u8,
            alloc,
        }
    }

    /// The encoder.
    pub(crate) fn shared(&mut self) -> &mut Shared<Encoder>
        requires { IsSome self.old.encoder }
        ensures* lends { sem 𝓛 (LendsEncoder self.entry result) }
        ensures encoder { Some result.now ≡ self.old.encoder }
    {
        unsafe { &mut *(self.at as *mut Shared<Encoder>) }
    }

    /// The encoder, which the pointer then no longer owns.
    pub(crate) fn into_loose(self) -> Loose<Shared<Encoder>, Global>
        requires { IsSome self.encoder }
        ensures { Some result.value ≡ self.encoder }
    {
        let EncoderSlot { at, alloc } = self;
        Loose {
            at: at as *mut Shared<Encoder>,
            alloc,
        }
    }
}
