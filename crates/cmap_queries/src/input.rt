//! Reading an input to its end, and splitting a bundle from the file after it.

ghost use Rattle.std.specs.Prelude.{◌≡◌, ◌<◌, ◌++◌, IfOk, IfSome, MatchOption, length};

use crate::failure::Failure;
use std::alloc::Global;
use std::io::{ErrorKind, Read};

/// How many bytes a read asks for.
const PIECE_LEN: usize = 8192;

/// The first capacity of the buffer, in bytes. A buffer of this size has pages of its own: the pages aren't copied
/// when the buffer grows, and take no memory before they are filled.
const FIRST_ROOM: usize = 1 << 18;

/// The greatest number of reads of an input: with whole pieces, 32 TiB. The limit ends the loop on any input.
const MOST_READS: u32 = u32::MAX;

/// All bytes of `input`. An input that hasn't ended after `MOST_READS` reads is unreadable.
pub fn read_all<R: Read>(alloc: Global, input: &mut R) -> Result<Vec<u8>, Failure>
    ensures { IfOk result (λ all. IfSome (R.remaining input.old) (λ given. all.items ≡ given)) }
{
    let mut bytes = Vec::with_capacity(alloc, FIRST_ROOM)?;
    let mut piece = vec![in alloc; 0; PIECE_LEN]?;
    for _ in 0..MOST_READS {
        match input.read(&mut piece) {
            Ok(0) => return Ok(bytes),
            Ok(count) => bytes.extend_from_slice(&piece[..count])?,
            Err(error) if error.kind() == ErrorKind::Interrupted => {}
            Err(error) => return Err(Failure::from(error)),
        }
    }
    Err(Failure::Unreadable)
}

/// The first `len` bytes, and the bytes after them; `None` if there are fewer than `len` bytes.
pub fn split_bundle(bytes: &[u8], len: u64) -> Option<(&[u8], &[u8])>
    ensures { MatchOption result (length bytes.now < len)
        (λ parts. (bytes.now ≡ parts.0.now ++ parts.1.now) × (length parts.0.now ≡ len)) }
{
    bytes.split_at_checked(usize::try_from(len).ok()?)
}
