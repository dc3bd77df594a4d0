//! The arguments of the program, which may not be UTF-8.

use crate::failure::Failure;
use crate::path_text::path_text;
use std::alloc::{AllocError, Global};
use std::env::{Env, FillError};

/// The number of bytes of the first buffer for an argument.
const ROOM: usize = 256;

/// The number of times that the buffer is doubled at most.
const MOST_DOUBLINGS: u32 = 32;

/// The arguments. The first is the name of the program.
pub fn arguments(rt: &HostRuntime) -> Result<Vec<String>, Failure> {
    let mut arguments = Vec::new(rt.alloc());
    for index in 0..usize::MAX {
        let Some(argument) = argument(rt, index)? else {
            break;
        };
        arguments.push(path_text(rt.alloc(), &argument)?)?;
    }
    Ok(arguments)
}

/// The bytes of the argument at an index.
fn argument(rt: &HostRuntime, index: usize) -> Result<Option<Vec<u8>>, AllocError> {
    let mut len = ROOM;
    for _ in 0..MOST_DOUBLINGS {
        let mut room = zeros(rt.alloc(), len)?;
        match rt.arg(index, &mut room) {
            Ok(count) => {
                room.truncate(count);
                return Ok(Some(room));
            }
            Err(FillError::NotPresent) => return Ok(None),
            Err(FillError::TooLong) => len = len.saturating_mul(2),
        }
    }
    Err(AllocError)
}

fn zeros(alloc: Global, len: usize) -> Result<Vec<u8>, AllocError> {
    let mut zeros = Vec::new(alloc);
    zeros.resize(len, 0)?;
    Ok(zeros)
}
