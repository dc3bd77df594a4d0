//! The lengths of codes in bytes, and the numbers that the bytes of codes write.

ghost use Rattle.std.specs.Prelude.{◌≡◌, ◌+◌, ◌^◌, option_map, MatchOption};
ghost use Rattle.cmap_values.specs.CodeLengths.{IsCodeLength, code_seen, code_written, length_of};

/// How many bytes a code has: one to four.
#[derive(Clone, Copy, Debug, PartialEq, Eq)]
pub enum CodeLength {
    One,
    Two,
    Three,
    Four,
}

impl CodeLength {
    /// The lengths that codes can have.
    pub const ALL: &'static [CodeLength] = &[
        CodeLength::One,
        CodeLength::Two,
        CodeLength::Three,
        CodeLength::Four,
    ];

    /// The length of codes of `count` bytes; `None` unless `count` is from one to four.
    pub fn of(count: u8) -> Option<CodeLength>
        ensures { MatchOption result (IsCodeLength count → ⊥)
            (λ len. IsCodeLength count × (length_of len ≡ count)) }
    {
        match count {
            1 => Some(CodeLength::One),
            2 => Some(CodeLength::Two),
            3 => Some(CodeLength::Three),
            4 => Some(CodeLength::Four),
            _ => None,
        }
    }

    /// The number of bytes.
    pub fn count(self) -> u8
        ensures { result ≡ length_of self }
    {
        match self {
            CodeLength::One => 1,
            CodeLength::Two => 2,
            CodeLength::Three => 3,
            CodeLength::Four => 4,
        }
    }

    /// The last code of this length.
    pub fn last_code(self) -> u32
        ensures { result + 1 ≡ 256 ^ length_of self }
    {
        match self {
            CodeLength::One => 0xFF,
            CodeLength::Two => 0xFFFF,
            CodeLength::Three => 0xFF_FFFF,
            CodeLength::Four => u32::MAX,
        }
    }
}

/// The code that one to four bytes write: its length, and its big-endian number. `None` for no
/// bytes, and for more than four.
pub fn read_code(bytes: &[u8]) -> Option<(CodeLength, u32)>
    ensures { option_map code_seen result ≡ code_written bytes.now }
{
    match *bytes {
        [a] => Some((CodeLength::One, u32::from(a))),
        [a, b] => Some((CodeLength::Two, u32::from_be_bytes([0, 0, a, b]))),
        [a, b, c] => Some((CodeLength::Three, u32::from_be_bytes([0, a, b, c]))),
        [a, b, c, d] => Some((CodeLength::Four, u32::from_be_bytes([a, b, c, d]))),
        _ => None,
    }
}
