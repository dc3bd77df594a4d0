//! Reading one file past its faults.

ghost use Rattle.std.specs.Prelude.{IfOk};
ghost use Rattle.cmap_binary.specs.BundleSeen.{tables_given};
ghost use Rattle.cmap_values.specs.FilesSeen.{file_seen};
ghost use Rattle.cmap_load.specs.Salvage.{IsReadPast, SalvagesBytes};

use crate::chain::read_file;
use cmap_binary::{Bundle, is_marked_binary, salvage_binary};
use cmap_text::salvage_text;
use cmap_values::fault::Fault;
use cmap_values::file::Salvaged;
use std::alloc::{AllocError, Global};

/// Reads bytes past their faults, and lists the faults. Bytes that mean a file give this file,
/// without a fault.
pub(crate) fn read_past<'a>(
    alloc: Global,
    bytes: &'a [u8],
    bundle: Option<&Bundle<'_>>,
) -> Result<Salvaged<'a>, AllocError>
    ensures { IfOk result (λ read. IsReadPast (tables_given bundle.entry) bytes.now
        (file_seen read.file) read.faults.items) }
{
    match read_file(alloc, bytes, bundle) {
        Ok(file) => Ok(Salvaged {
            file,
            faults: Vec::new(alloc),
        }),
        Err(Fault::Refused(_stop)) => salvage_bytes(alloc, bytes, bundle),
        Err(Fault::Memory) => Err(AllocError),
    }
}

/// Reads bytes that mean no file past their faults, and lists the faults.
fn salvage_bytes<'a>(
    alloc: Global,
    bytes: &'a [u8],
    bundle: Option<&Bundle<'_>>,
) -> Result<Salvaged<'a>, AllocError>
    ensures { IfOk result (λ read. SalvagesBytes (tables_given bundle.entry) bytes.now
        (file_seen read.file) read.faults.items) }
{
    match bundle {
        Some(bundle) if is_marked_binary(bytes) => salvage_binary(alloc, bundle, bytes),
        _ => salvage_text(alloc, bytes),
    }
}
