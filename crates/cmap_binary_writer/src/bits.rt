//! Bits written one after another, with the high bit of each byte first.

ghost use Rattle.std.specs.Prelude.{◌≡◌, ℕ, ◌<◌, ◌≤◌, List, [], ◌∷◌, ◌++◌, IfOk, length, replicate};
ghost use Rattle.cmap_binary.specs.PrefixWords.{bits, bits_of};

use std::alloc::{AllocError, Global};
use std::marker::Model;

/// The bits written so far. A clause sees all of them, in order.
#[derive(Drop)]
pub(crate) struct BitWriter {
    /// The full bytes.
    bytes: Vec<u8>,
    /// The number of bits of the next byte, and the number that these bits form.
    count: u8,
    pending: u8,
}

impl Model for BitWriter {
    ghost use Rattle.std.specs.Prelude.{ℕ, ◌<◌, ◌^◌, List, ◌++◌};
    ghost use Rattle.cmap_binary.specs.PrefixWords.{bits, bits_of};

    ghost Value = { List ℕ };

    ghost view = { λ w. bits w.bytes.items ++ bits_of w.count w.pending };

    ghost invariant = { λ w. (w.count < 8) × (w.pending < 2 ^ w.count) };
}

impl BitWriter {
    /// No bits.
    pub(crate) fn new(alloc: Global) -> BitWriter
        ensures { result ≡ [] }
    {
        BitWriter {
            bytes: Vec::new(alloc),
            count: 0,
            pending: 0,
        }
    }

    /// Writes the last `len` bits of a number, with the high bit first.
    pub(crate) fn push(&mut self, value: u32, len: u8) -> Result<(), AllocError>
        requires { len ≤ 32 }
        ensures { IfOk result (λ _. self.new ≡ self.old ++ bits_of len value) }
    {
        let mut left = len;
        while left > 0 {
            left -= 1;
            self.push_bit((value >> left & 1) as u8)?;
        }
        Ok(())
    }

    /// Writes one bit.
    fn push_bit(&mut self, bit: u8) -> Result<(), AllocError>
        requires { bit < 2 }
        ensures { IfOk result (λ _. self.new ≡ self.old ++ bit ∷ []) }
    {
        let pending = self.pending * 2 + bit;
        if self.count == 7 {
            self.bytes.push(pending)?;
            self.count = 0;
            self.pending = 0;
        } else {
            self.count += 1;
            self.pending = pending;
        }
        Ok(())
    }

    /// The bytes that begin with the bits. Zero bits fill the last byte.
    pub(crate) fn finish(self) -> Result<Vec<u8>, AllocError>
        ensures { IfOk result (λ bytes. (rest : List ℕ) × (bits bytes.items ≡ self ++ rest) × (length rest < 8)
            × (rest ≡ replicate (length rest) 0)) }
    {
        let BitWriter {
            mut bytes,
            count,
            pending,
        } = self;
        if count > 0 {
            bytes.push(pending << (8 - count))?;
        }
        Ok(bytes)
    }
}
