//! Queues of the bits of bytes. The next bits are held in one number.

ghost use Rattle.std.specs.Prelude.{◌≡◌, ◌++◌, ℕ, ◌+◌, ◌-◌, ◌*◌, ◌/◌, ◌%◌, ◌^◌, ◌<◌, ◌≤◌, IfSome, length};
ghost use Rattle.cmap_binary.specs.BitQueues.{IsFilled, after_held, bits_ahead};
ghost use Rattle.cmap_binary.specs.PrefixWords.{bits, bits_of};

use std::marker::Model;

/// The least number of bits that are held after `fill`, unless fewer are left: the length of the
/// longest word.
const ENOUGH: u32 = 32;

/// A queue of bits. The next `held` bits are the last bits of `ahead`, the high one first; the bits
/// of `rest` come after them.
#[derive(Debug, Drop)]
pub struct BitQueue<'a> {
    ahead: u64,
    held: u32,
    rest: &'a [u8],
}

// Contracts see the fields.
impl<'a> Model for BitQueue<'a> {
    ghost use Rattle.std.specs.Prelude.{◌≤◌};
    ghost use Rattle.cmap_binary.specs.BitQueues.{Queue};

    ghost Value = { Queue };

    ghost view = { λ q. record { ahead = q.ahead; held = q.held; rest = q.rest.now } };

    ghost invariant = { λ q. q.held ≤ 64 };
}

impl<'a> BitQueue<'a> {
    /// The bits of these bytes.
    pub fn new(bytes: &'a [u8]) -> BitQueue<'a>
        ensures { bits_ahead result ≡ bits bytes.now }
    {
        BitQueue {
            ahead: 0,
            held: 0,
            rest: bytes,
        }
    }

    /// The last `count` bits of a byte, then the bits of the bytes in `rest`.
    pub(crate) fn after(byte: u8, count: u32, rest: &'a [u8]) -> BitQueue<'a>
        requires { count ≤ 8 }
        ensures { result ≡ record { ahead = byte; held = count; rest = rest.now } }
    {
        BitQueue {
            ahead: u64::from(byte),
            held: count,
            rest,
        }
    }

    /// Makes the queue hold at least as many bits as the longest word has, or all bits that are
    /// left.
    #[inline(always)]
    pub(crate) fn fill(&mut self)
        ensures same { bits_ahead self.new ≡ bits_ahead self.old }
        ensures filled { IsFilled self.new }
    {
        if self.held >= ENOUGH {
            return;
        }
        if let [first, second, third, fourth, rest @ ..] = self.rest {
            let next = u32::from_be_bytes([*first, *second, *third, *fourth]);
            self.ahead = self.ahead << 32 | u64::from(next);
            self.held += 32;
            self.rest = rest;
        } else {
            self.ahead = with_bytes(self.ahead, self.rest);
            self.held += 8 * self.rest.len() as u32;
            self.rest = &[];
        }
    }

    /// The next eight bits as a byte, if that many are held.
    #[inline(always)]
    pub(crate) fn peek_u8(&self) -> Option<u8>
        ensures { IfSome result (λ byte. (8 ≤ self.now.held)
            × (byte ≡ self.now.ahead / 2 ^ (self.now.held - 8) % 2 ^ 8)) }
    {
        if self.held < 8 {
            return None;
        }
        Some((self.ahead >> (self.held - 8) & 0xFF) as u8)
    }

    /// The bits that are held, as the last bits of a number, and the number of these bits.
    pub(crate) fn at_hand(&self) -> (u64, u32)
        ensures all { result ≡ (self.now.ahead, self.now.held) }
        ensures most { self.now.held ≤ 64 }
    {
        (self.ahead, self.held)
    }

    /// Moves past `count` bits that are held.
    #[inline(always)]
    pub(crate) fn skip(&mut self, count: u32)
        requires { count ≤ self.old.held }
        ensures { self.new ≡ after_held self.old count }
    {
        self.held -= count;
    }
}

/// The number, followed by the bits of up to three bytes.
#[inline(never)]
fn with_bytes(number: u64, bytes: &[u8]) -> u64
    requires { length bytes.now < 4 }
    ensures { (held : ℕ) → held ≤ 32
        → bits_of (held + 8 * length bytes.now) result ≡ bits_of held number ++ bits bytes.now }
{
    let mut longer = number;
    for byte in bytes {
        longer = longer << 8 | u64::from(*byte);
    }
    longer
}
