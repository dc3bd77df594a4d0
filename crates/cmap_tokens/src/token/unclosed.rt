//! The unclosed parentheses of a text.

ghost use Rattle.std.specs.Prelude.{◌⊎◌, ◌≡◌, ◌+◌, ◌++◌, ◌<◌, ◌≤◌, ℕ, List, [], true, get_or, length, IfOk};
ghost use Rattle.std.specs.List.{All};
ghost use Rattle.cmap_tokens.specs.Pieces.{IsUnclosed};
ghost use Rattle.cmap_tokens.specs.OpenSeen.{Tracks, plain_count};

use std::alloc::{AllocError, Global};

/// A `(` that isn't closed yet.
#[derive(Clone, Copy)]
struct Open {
    offset: usize,
    /// Whether a backslash stands before the `(`. Then no `)` belongs to it, and it is closed together
    /// with the `(` around it.
    escaped: bool,
}

/// All unclosed `(` of a text from a first one on, in order.
#[derive(Drop)]
pub(super) struct Unclosed {
    open: Vec<Open>,
    /// The number of entries of `open` that have been passed.
    passed: usize,
}

impl Unclosed {
    /// No unclosed `(`.
    pub(super) fn none(alloc: Global) -> Self
        ensures { result.open.items ≡ [] }
    {
        Unclosed {
            open: Vec::new(alloc),
            passed: 0,
        }
    }

    /// All unclosed `(` from the offset `first` on, at which the first one stands.
    pub(super) fn from(alloc: Global, text: &[u8], first: usize) -> Result<Self, AllocError>
        requires { first ≤ length text.now }
        ensures { IfOk result (λ made. All (λ one. IsUnclosed text.now one.offset) made.open.items) }
    {
        let mut opened = Vec::new(alloc);
        let mut escaped = false;
        for offset in first..text.len() {
            escaped = pass_byte(text[offset], offset, escaped, &mut opened)?;
        }
        Ok(Unclosed {
            open: opened,
            passed: 0,
        })
    }

    /// Whether the `(` at this offset is known to be unclosed. No later call has a smaller offset.
    pub(super) fn has(&mut self, offset: usize) -> bool
        ensures has { (text : List ℕ) → All (λ one. IsUnclosed text one.offset) self.old.open.items
            → result ≡ true → IsUnclosed text offset }
        ensures same { self.new.open.items ≡ self.old.open.items }
    {
        while self.passed < self.open.len() && self.open[self.passed].offset < offset {
            self.passed += 1;
        }
        self.passed < self.open.len() && self.open[self.passed].offset == offset
    }
}

/// Updates the open parentheses for the byte at this offset. `escaped` states whether a backslash
/// escapes the byte. The answer is whether the byte escapes the next byte.
fn pass_byte(
    byte: u8,
    offset: usize,
    escaped: bool,
    opened: &mut Vec<Open>,
) -> Result<bool, AllocError>
    ensures { IfOk result (λ next. (text : List ℕ) → offset < length text → byte ≡ get_or text offset 0
        → Tracks text offset escaped opened.old.items → Tracks text (offset + 1) next opened.new.items) }
{
    match byte {
        b'(' => opened.push(Open { offset, escaped })?,
        b')' if !escaped => close(opened),
        _ => return Ok(byte == b'\\' && !escaped),
    }
    Ok(false)
}

/// Closes the innermost `(` that isn't escaped, and all escaped `(` inside it.
fn close(opened: &mut Vec<Open>)
    ensures { (dropped : List Open) × (opened.old.items ≡ opened.new.items ++ dropped)
        × ((opened.new.items ≡ []) ⊎ (plain_count dropped ≡ 1)) }
{
    while let Some(last) = opened.pop() {
        if !last.escaped {
            return;
        }
    }
}
