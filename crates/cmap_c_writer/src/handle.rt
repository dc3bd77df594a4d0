//! Encoders that C holds.

ghost use Rattle.std.specs.Prelude.{◌≡◌, None, Some, MatchResult, is_some};
ghost use Rattle.std.specs.Option.{option_copied};
ghost use Rattle.cmap_handles.specs.Statuses.{number};
ghost use Rattle.cmap_handles.specs.declared.status.Status.TheVariants.{Done, NoMemory};

use crate::slot::EncoderSlot;
use cmap_encode::Encoder;
use cmap_handles::loose::Loose;
use cmap_handles::shared::Shared;
use cmap_handles::status::Status;
use std::alloc::{AllocError, Global};
use std::mem;

/// An encoder that C holds, or none. An empty handle is all zero bytes.
#[repr(C)]
#[derive(Drop)]
pub struct EncoderHandle {
    full: bool,
    /// The encoder, behind a pointer.
    pub slot: EncoderSlot,
    ghost agrees: { full ≡ is_some slot.encoder },
}

impl EncoderHandle {
    ghost use Rattle.std.specs.Borrow.{sem};
    ghost use Rattle.cmap_c_writer.specs.LentEncoder.{RestsEncoder};

    /// A handle without an encoder.
    pub(crate) fn empty(alloc: Global) -> EncoderHandle
        ensures { result.slot.encoder ≡ None }
    {
        EncoderHandle {
            full: false,
            slot: EncoderSlot::empty(alloc),
        }
    }

    /// The encoder, if there is one, for sharing.
    pub(crate) fn shared(&mut self) -> Option<&Shared<Encoder>>
        ensures* rests { sem 𝓛 (RestsEncoder self.entry) }
        ensures encoder { option_copied result ≡ self.old.slot.encoder }
    {
        if self.full {
            Some(self.slot.shared())
        } else {
            None
        }
    }

    /// The encoder, if there is one, for encoding.
    pub(crate) fn encoder(&mut self) -> Option<&Encoder>
        ensures* rests { sem 𝓛 (RestsEncoder self.entry) }
        ensures encoder { option_copied result ≡ self.old.slot.encoder }
    {
        match self.shared() {
            Some(shared) => Some(shared.value()),
            None => None,
        }
    }

    /// Gives an empty handle an encoder.
    pub(crate) fn put(&mut self, encoder: Box<Shared<Encoder>>)
        requires { self.old.slot.encoder ≡ None }
        ensures { self.new.slot.encoder ≡ Some encoder.value }
    {
        *self = EncoderHandle {
            full: true,
            slot: EncoderSlot::of_loose(Loose::of(encoder)),
        };
    }

    /// Gives an empty handle the encoder that was made, or no encoder if memory ran out. The result
    /// is the number of the status.
    pub(crate) fn keep(&mut self, made: Result<Box<Shared<Encoder>>, AllocError>) -> u32
        requires { self.old.slot.encoder ≡ None }
        ensures { MatchResult made
            (λ encoder. (result ≡ number Done) × (self.new.slot.encoder ≡ Some encoder.value))
            (λ _. (result ≡ number NoMemory) × (self.new.slot.encoder ≡ None)) }
    {
        match made {
            Ok(encoder) => {
                self.put(encoder);
                Status::Done.number()
            }
            Err(_) => Status::NoMemory.number(),
        }
    }

    /// Frees the encoder, if there is one.
    pub(crate) fn clear(&mut self, alloc: Global)
        ensures { self.new.slot.encoder ≡ None }
    {
        let EncoderHandle { full, slot } = mem::replace(self, EncoderHandle::empty(alloc));
        if full {
            drop(slot.into_loose().into_box());
        }
    }
}
