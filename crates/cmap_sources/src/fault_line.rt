//! The lines of bytes at fault.

ghost use Rattle.std.specs.Prelude.{◌≡◌};
ghost use Rattle.cmap_sources.specs.LineEnds.{line_ends};

use cmap_io::count::Count;

/// The number of lines that end in these bytes. A line ends with LF, CR, or CR and LF. If the bytes follow a carriage
/// return, a line feed at their start ends no further line.
pub fn ends_in(bytes: &[u8], is_after_return: bool) -> usize
    ensures { result ≡ line_ends is_after_return bytes.now }
{
    let mut ends = 0;
    let mut after_return = is_after_return;
    for (i, byte) in bytes.iter().enumerate() {
        let is_return = *byte == b'\r';
        if is_return || *byte == b'\n' && !after_return {
            ends += 1;
        }
        after_return = is_return;
    }
    ends
}

/// Finds the line numbers of bytes in files. Bytes of one file in the order of their offsets take one pass over the
/// file.
#[derive(Drop)]
pub struct LineCounter<'n> {
    /// The name of the file, if it has one.
    name: Option<&'n [u8]>,
    /// The offset of the byte whose line was found last.
    offset: usize,
    /// The line number of the byte at `offset`.
    line: Count,
    is_after_return: bool,
}

impl<'n> LineCounter<'n> {
    /// A counter that has read no file yet.
    pub fn new() -> Self {
        LineCounter {
            name: None,
            offset: 0,
            line: Count::of(1),
            is_after_return: false,
        }
    }

    /// The line number of the byte at this offset of a file; the first line is 1. `None` if the offset is past the
    /// end. Equal names stand for the same file.
    pub fn line_of(&mut self, name: Option<&'n [u8]>, file: &[u8], offset: usize) -> Option<usize> {
        if name != self.name || offset < self.offset {
            *self = LineCounter {
                name,
                ..LineCounter::new()
            };
        }
        self.count(file.get(self.offset..offset)?);
        self.offset = offset;
        Some(self.line.get())
    }

    /// Counts the line ends of the bytes that follow.
    fn count(&mut self, bytes: &[u8]) {
        self.line.add(ends_in(bytes, self.is_after_return));
        if let Some(last) = bytes.last() {
            self.is_after_return = *last == b'\r';
        }
    }
}
