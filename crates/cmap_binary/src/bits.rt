//! Bits, and big-endian numbers of one to four bytes, read from bytes in order.

ghost use Rattle.std.specs.Prelude.{◌≡◌, ℕ, ◌/◌, ◌≤◌, ◌↔◌, Bool, List, [], ◌∷◌, ◌++◌, length, option_map, is_some, slice_get, IsTrue, IfSome, if◌then◌else◌, nat_le, ◌&&◌};
ghost use Rattle.std.specs.List.{before_first};
ghost use Rattle.cmap_binary.specs.BitQueues.{bits_ahead};
ghost use Rattle.cmap_binary.specs.Reader.{bits_left, bytes_left, IsAtByte, after_bits, after_bytes, front, number_at, AnswersByByte, AnswersBy};
ghost use Rattle.cmap_binary.specs.PrefixWords.{bits};

use crate::bit_queue::BitQueue;
use cmap_values::code_length::read_code;
use std::marker::Model;

/// Bytes, and the position up to which they have been read. Bits are taken from the high bit of each
/// byte on. Whole bytes are taken only at a byte boundary (`at_byte`); elsewhere the answers of the
/// calls that read bytes aren't specified. A call that answers `None` takes nothing, and no call
/// allocates memory.
#[derive(Debug, Drop)]
pub struct Reader<'a> {
    bytes: &'a [u8],
    /// The number of whole bytes passed.
    byte: usize,
    /// The number of bits taken from the next byte.
    bit: u32,
}

// Contracts see the bytes, and the number of bits that have been taken.
impl<'a> Model for Reader<'a> {
    ghost use Rattle.std.specs.Prelude.{ℕ, ◌+◌, ◌*◌, ◌<◌, ◌≤◌, length};
    ghost use Rattle.cmap_binary.specs.Reader.{Reading};

    ghost Value = { Reading };

    ghost view = { λ r. record { source = r.bytes.now; taken = 8 * r.byte + r.bit } };

    ghost invariant = { λ r. (r.bit < 8) × (8 * r.byte + r.bit ≤ 8 * length r.bytes.now) };
}

impl<'a> Reader<'a> {
    /// A reader before the first byte.
    pub fn new(bytes: &'a [u8]) -> Reader<'a>
        ensures { result ≡ record { source = bytes.now; taken = 0 } }
    {
        Reader {
            bytes,
            byte: 0,
            bit: 0,
        }
    }

    /// The next bit, 0 or 1; `None` if no bit is left.
    pub fn read_bit(&mut self) -> Option<u8>
        ensures value { result ≡ slice_get (bits self.old.source) self.old.taken }
        ensures moves { self.new ≡ (if is_some result then after_bits self.old 1 else self.old) }
    {
        let byte = self.bytes.get(self.byte).copied()?;
        let bit = byte >> (7 - self.bit) & 1;
        let next = self.bit + 1;
        self.byte += (next / 8) as usize;
        self.bit = next % 8;
        Some(bit)
    }

    /// The next byte; `None` if no byte is left.
    pub fn read_u8(&mut self) -> Option<u8>
        requires { IsAtByte self.old }
        ensures value { result ≡ slice_get (bytes_left self.old) 0 }
        ensures moves { self.new ≡ (if is_some result then after_bytes self.old 1 else self.old) }
    {
        let byte = self.bytes.get(self.byte).copied()?;
        self.byte += 1;
        Some(byte)
    }

    /// The big-endian number in the next two bytes; `None` if fewer bytes are left.
    pub fn read_u16(&mut self) -> Option<u16>
        requires { IsAtByte self.old }
        ensures value { result ≡ number_at 2 (bytes_left self.old) }
        ensures moves { self.new ≡ (if is_some result then after_bytes self.old 2 else self.old) }
    {
        let bytes = self.read_bytes(2)?;
        Some(u16::from_be_bytes([bytes[0], bytes[1]]))
    }

    /// The big-endian number in the next four bytes; `None` if fewer bytes are left.
    pub fn read_u32(&mut self) -> Option<u32>
        requires { IsAtByte self.old }
        ensures value { result ≡ number_at 4 (bytes_left self.old) }
        ensures moves { self.new ≡ (if is_some result then after_bytes self.old 4 else self.old) }
    {
        self.read_n_bytes(4)
    }

    /// The big-endian number in the next `n` bytes, for an `n` from 1 to 4; `None` for any other `n`,
    /// and if fewer bytes are left.
    pub fn read_n_bytes(&mut self, n: u8) -> Option<u32>
        requires { IsAtByte self.old }
        ensures value { result ≡
            (if nat_le 1 n && nat_le n 4 then number_at n (bytes_left self.old) else None) }
        ensures moves { self.new ≡ (if is_some result then after_bytes self.old n else self.old) }
    {
        let n = usize::from(n);
        let bytes = self.left().get(..n)?;
        let (_, number) = read_code(bytes)?;
        self.skip_bytes(n);
        Some(number)
    }

    /// The next `n` bytes, as a slice of the reader's bytes; `None` if fewer bytes are left.
    pub fn read_bytes(&mut self, n: usize) -> Option<&'a [u8]>
        requires { IsAtByte self.old }
        ensures value { option_map (λ s. s.now) result ≡ front n (bytes_left self.old) }
        ensures moves { self.new ≡ (if is_some result then after_bytes self.old n else self.old) }
    {
        let bytes = self.left().get(..n)?;
        self.skip_bytes(n);
        Some(bytes)
    }

    /// The bytes before the first byte for which `f` is true, which is not taken, or all bytes that
    /// are left if there is no such byte: a slice of the reader's bytes. `f` must accept any byte,
    /// and its answer must depend on the byte alone.
    pub fn eat_until<F: Fn(u8) -> bool + Drop>(&mut self, f: F) -> &'a [u8]
        requires at_byte { IsAtByte self.old }
        requires callable { F.IsAlwaysCallable f }
        requires answers { AnswersByByte (F.post f) }
        ensures value { (p : ℕ → Bool) → AnswersBy (F.post f) p →
            result.now ≡ before_first p (bytes_left self.old) }
        ensures moves { self.new ≡ after_bytes self.old (length result.now) }
    {
        let left = self.left();
        let mut count = 0;
        for byte in left {
            if f(*byte) {
                break;
            }
            count += 1;
        }
        self.skip_bytes(count);
        &left[..count]
    }

    /// The number of whole bytes that have been passed. A byte from which only some bits are taken
    /// doesn't count.
    pub fn position(&self) -> usize
        ensures value { result ≡ self.now.taken / 8 }
        ensures within { result ≤ length self.now.source }
    {
        self.byte
    }

    /// Whether no bit is left.
    pub fn at_end(&self) -> bool
        ensures { IsTrue result ↔ (bits_left self.now ≡ []) }
    {
        self.byte == self.bytes.len()
    }

    /// Whether the reader is at a byte boundary, as the calls that read bytes require.
    pub fn at_byte(&self) -> bool
        ensures { IsTrue result ↔ IsAtByte self.now }
    {
        self.bit == 0
    }

    /// The bytes that are left.
    pub(crate) fn left(&self) -> &'a [u8]
        ensures { result.now ≡ bytes_left self.now }
    {
        &self.bytes[self.byte..]
    }

    /// Moves past `n` bytes.
    pub(crate) fn skip_bytes(&mut self, n: usize)
        requires at_byte { IsAtByte self.old }
        requires within { n ≤ length (bytes_left self.old) }
        ensures { self.new ≡ after_bytes self.old n }
    {
        self.byte += n;
    }

    /// Moves past `count` bits, at most as many as the longest word has.
    pub(crate) fn skip_bits(&mut self, count: u32)
        requires few { count ≤ 32 }
        requires within { count ≤ length (bits_left self.old) }
        ensures { self.new ≡ after_bits self.old count }
    {
        let bit = self.bit + count;
        self.byte += (bit / 8) as usize;
        self.bit = bit % 8;
    }

    /// The bits that are left.
    pub(crate) fn queue(&self) -> BitQueue<'a>
        ensures { bits_ahead result ≡ bits_left self.now }
    {
        match self.left() {
            [first, rest @ ..] => BitQueue::after(*first, 8 - self.bit, rest),
            [] => BitQueue::new(&[]),
        }
    }
}
