//! Encoders that several handles share, for C.

ghost use Rattle.std.specs.Prelude.{◌≡◌, ◌⊎◌, None};
ghost use Rattle.cmap_handles.specs.Statuses.{number};
ghost use Rattle.cmap_handles.specs.declared.status.Status.TheVariants.{Done, NoMemory};

use crate::handle::EncoderHandle;
use cmap_handles::status::Status;
use std::alloc::Global;

/// Lets the handle `other` share the encoder of a handle. `other` is emptied if there is no encoder. The encoder that
/// `other` held is freed.
#[unsafe(no_mangle)]
pub extern "C" fn hayro_cmap_encoder_share(
    encoder: &mut EncoderHandle,
    alloc: Global,
    other: &mut EncoderHandle,
) -> u32
    ensures same { encoder.new.slot.encoder ≡ encoder.old.slot.encoder }
    ensures shared { ((result ≡ number Done) × (other.new.slot.encoder ≡ encoder.old.slot.encoder))
        ⊎ ((result ≡ number NoMemory) × (other.new.slot.encoder ≡ None)) }
{
    other.clear(alloc);
    match encoder.shared() {
        Some(shared) => other.keep(shared.share(alloc)),
        None => Status::Done.number(),
    }
}

/// Frees the encoder, if there is one.
#[unsafe(no_mangle)]
pub extern "C" fn hayro_cmap_encoder_free(encoder: &mut EncoderHandle, alloc: Global)
    ensures { encoder.new.slot.encoder ≡ None }
{
    encoder.clear(alloc);
}
