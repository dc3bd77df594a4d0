//! The bytes of files, which are shared and not copied.

ghost use Rattle.std.specs.Prelude.{◌≡◌, IfOk};
ghost use Rattle.cmap_io.specs.BytesSeen.{bytes_seen};

use std::alloc::AllocError;
use std::rc::RcSlice;

/// The bytes of a file.
#[derive(Drop)]
pub enum FileBytes<'b> {
    /// The bytes of a file in a bundle, which lends them.
    Lent(&'b [u8]),
    /// The bytes of a file that was read.
    Read(RcSlice<u8>),
}

impl<'b> FileBytes<'b> {
    /// The bytes of a file that was read.
    pub fn of(bytes: Vec<u8>) -> Result<FileBytes<'b>, AllocError>
        ensures { IfOk result (λ file. bytes_seen file ≡ bytes.items) }
    {
        Ok(FileBytes::Read(RcSlice::from_vec(bytes)?))
    }

    /// The same bytes, without a copy.
    pub fn share(&self) -> Result<FileBytes<'b>, AllocError>
        ensures { IfOk result (λ file. bytes_seen file ≡ bytes_seen self.now) }
    {
        match self {
            FileBytes::Lent(bytes) => Ok(FileBytes::Lent(*bytes)),
            FileBytes::Read(bytes) => Ok(FileBytes::Read(bytes.clone()?)),
        }
    }

    /// The bytes.
    pub fn as_slice(&self) -> &[u8]
        ensures { result.now ≡ bytes_seen self.now }
    {
        match self {
            FileBytes::Lent(bytes) => *bytes,
            FileBytes::Read(bytes) => bytes.as_slice(),
        }
    }
}
