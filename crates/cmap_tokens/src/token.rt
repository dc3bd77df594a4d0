//! Tokens of PostScript text, one after another: names, strings and numbers.

ghost use Rattle.std.specs.Prelude.{IsTrue};
ghost use Rattle.cmap_tokens.specs.TokenReading.{is_string};

mod byte_class;
mod gaps;
mod lengths;
mod malformed_pieces;
mod numerals;
mod piece_reader;
mod pieces;
mod unclosed;
mod values;

pub use self::byte_class::is_regular;
use self::gaps::gap_len;
use self::lengths::malformed_len;
use self::numerals::{blank_decimal, padded_decimal, short_decimal};
pub use self::piece_reader::{MalformedPiece, Piece, PieceReader};
use self::pieces::{
    TWO_BYTES_LEN, first_token, spaced_pairs, spaced_parts, two_bytes, two_bytes_and_decimal,
    two_strings, two_strings_and_decimal,
};
use self::values::{decode_hex, decode_text, pairs_number};
use std::alloc::AllocError;
use std::fmt;
use std::marker::Model;

/// A token of PostScript (PostScript Language Reference, third edition, 3.2.2). Base-85 strings aren't among
/// the tokens. The slices of a token are slices of the text that contains it.
#[derive(Clone, Copy)]
pub enum Token<'a> {
    /// `/WMode`, `def`, `[`, `<<`
    Name(Name<'a>),
    /// `(text)`, `<8140>`
    String(StringToken<'a>),
    /// `17`, `-4.5`, `16#1F`
    Number(Number),
}

/// Shows the name, the string or the number itself.
impl<'a> fmt::Debug for Token<'a> {
    fn fmt<W: fmt::Write>(&self, f: &mut fmt::Formatter<W>) -> fmt::Result {
        match self {
            Token::Name(name) => fmt::Debug::fmt(name, f),
            Token::String(string) => fmt::Debug::fmt(string, f),
            Token::Number(number) => fmt::Debug::fmt(number, f),
        }
    }
}

/// A name: literal after a slash, else executable. The brackets `[`, `]`, `{`, `}`, `<<` and `>>`
/// are executable names too.
#[derive(Clone, Copy, Debug)]
pub struct Name<'a> {
    literal: bool,
    bytes: &'a [u8],
}

impl<'a> Name<'a> {
    ghost use Rattle.std.specs.Prelude.{◌≡◌};
    ghost use Rattle.cmap_tokens.specs.TokenSeen.{name_is_literal, bytes_of_name};

    /// Whether a slash stands before the name.
    pub fn is_literal(&self) -> bool
        ensures { result ≡ name_is_literal self.now }
    {
        self.literal
    }

    /// The bytes of the name in the text, without the slash. A `#` in a name is an ordinary byte and begins
    /// no escape.
    pub fn as_bytes(&self) -> &'a [u8]
        ensures { result.now ≡ bytes_of_name self.now }
    {
        self.bytes
    }
}

/// A string as it is written, in parentheses or between `<` and `>`.
#[derive(Clone, Copy, Debug)]
pub struct StringToken<'a> {
    raw: &'a [u8],
    ghost whole: { IsTrue (is_string raw.now) },
}

impl<'a> StringToken<'a> {
    ghost use Rattle.std.specs.Prelude.{◌≡◌, ◌↔◌, ◌<◌, ◌≤◌, ◌^◌, ◌==◌, ℕ, List, get_or, length, vec_capacity, is_some, IfSome, IsTrue, IsOk, OnOk, OnErr};
    ghost use Rattle.std.specs.Int.Digits.{number_from_digits};
    ghost use Rattle.std.specs.List.{AllByRecursion};
    ghost use Rattle.cmap_tokens.specs.Ascii.{byte};
    ghost use Rattle.cmap_tokens.specs.Strings.{IsValue, IsOnlyValue, IsPlain, inside};
    ghost use Rattle.cmap_tokens.specs.TokenSeen.{string_raw};

    /// The bytes of the string in the text, with its brackets.
    pub fn raw(&self) -> &'a [u8]
        ensures { result.now ≡ string_raw self.now }
    {
        self.raw
    }

    /// The number of bytes that the string stands for, and the big-endian number of these bytes, for a
    /// hexadecimal string of one to four pairs of digits without white space. `None` for any other string.
    /// The call allocates no memory.
    pub fn plain_number(&self) -> Option<(u8, u32)>
        ensures value { IfSome result (λ first. (value : List ℕ)
            × IsOnlyValue (string_raw self.now) value × AllByRecursion (λ b. b < 2 ^ 8) value
            × (first.0 ≡ length value) × (first.1 ≡ number_from_digits 256 value)) }
        ensures plain { IsTrue (is_some result) ↔ IsPlain (string_raw self.now) }
        ensures some { IfSome result (λ first. 1 ≤ first.0) }
        ensures few { IfSome result (λ first. first.0 ≤ 4) }
    {
        if self.is_hexadecimal() {
            pairs_number(self.body())
        } else {
            None
        }
    }

    /// Replaces the content of `out` by the bytes that the string stands for (PostScript Language Reference,
    /// third edition, 3.2.2). The string stands for at most as many bytes as `raw` has. `out` grows only
    /// before its content changes.
    ///
    /// The call fails only if `out` can't grow; then the content of `out` is unchanged.
    pub fn decode_into(&self, out: &mut Vec<u8>) -> Result<(), AllocError>
        ensures value { OnOk result (IsValue (string_raw self.now) out.new.items) }
        // The string stands for no other bytes.
        ensures only { OnOk result
            ((value : List ℕ) → IsValue (string_raw self.now) value → value ≡ out.new.items) }
        ensures err { OnErr result (out.new.items ≡ out.old.items) }
        ensures succeeds { length (string_raw self.now) ≤ vec_capacity out.old → IsOk result }
    {
        out.reserve(self.raw.len().saturating_sub(out.len()))?;
        out.clear();
        let body = self.body();
        if self.is_hexadecimal() {
            decode_hex(body, out);
        } else {
            decode_text(body, out);
        }
        Ok(())
    }

    /// Whether the string stands between `<` and `>`, and not in parentheses.
    fn is_hexadecimal(&self) -> bool
        ensures { result ≡ (get_or (string_raw self.now) 0 0 == byte "<") }
    {
        matches!(self.raw, [b'<', ..])
    }

    /// The bytes between the brackets.
    #[tactic(auto, using(crate::proofs::StringValues::has_brackets))]
    fn body(&self) -> &'a [u8]
        ensures { result.now ≡ inside (string_raw self.now) }
    {
        &self.raw[1..self.raw.len() - 1]
    }
}

/// The value of a number.
#[derive(Clone, Copy, PartialEq, Eq)]
pub enum Number {
    /// `-17`, `08`, `16#1F`: an integer, in base 10 or in the base before its `#`.
    Integer(i64),
    /// `4.5`, `1E9`: a real, without its value, or an integer outside of the range of `i64`.
    Real,
}

/// Shows the integer, or the word `Real`.
impl fmt::Debug for Number {
    fn fmt<W: fmt::Write>(&self, f: &mut fmt::Formatter<W>) -> fmt::Result {
        match self {
            Number::Integer(value) => fmt::Debug::fmt(value, f),
            Number::Real => f.write_str("Real"),
        }
    }
}

/// The reason why no token comes next in a text.
#[derive(Clone, Copy, Debug, PartialEq, Eq)]
pub enum Malformed {
    /// A `(` that no `)` balances up to the end of the text.
    UnclosedText,
    /// A `<` that only digits and white space follow, up to the end of the text.
    UnclosedHexadecimal,
    /// A byte in a hexadecimal string that is neither a digit nor white space.
    WrongDigit,
    /// A `)` or a `>` alone.
    Stray,
}

/// Reads the tokens of a text in order. White space and comments separate them and aren't tokens
/// (PostScript Language Reference, third edition, 3.2.1).
#[derive(Debug, Drop)]
pub struct Scanner<'a> {
    source: &'a [u8],
    offset: usize,
}

// Contracts see the text, and how many of its bytes the scanner has passed.
impl<'a> Model for Scanner<'a> {
    ghost use Rattle.std.specs.Prelude.{◌≤◌, length};
    ghost use Rattle.cmap_tokens.specs.Scanner.{Cursor};

    ghost Value = { Cursor };

    ghost view = { λ scanner. record { source = scanner.source.now; passed = scanner.offset } };

    ghost invariant = { λ scanner. scanner.offset ≤ length scanner.source.now };
}

impl<'a> Scanner<'a> {
    ghost use Rattle.cmap_tokens.specs.Ascii.{byte};
    ghost use Rattle.std.specs.Prelude.{◌≡◌, ℕ, ◌↔◌, ◌+◌, ◌*◌, ◌%◌, ◌<◌, ◌≤◌, ◌^◌, List, [], false, true, length, None, Some, Ok, pos, slice_get, IfOk, IfSome, IsErr, IsTrue, MatchOption, MatchResult, OnErr};
    ghost use Rattle.cmap_tokens.specs.Gaps.{IsBlank};
    ghost use Rattle.cmap_tokens.specs.Tokens.{HasNoFront, IsMalformed};
    ghost use Rattle.cmap_tokens.specs.Stops.{StopsAt};
    ghost use Rattle.cmap_tokens.specs.TokenReading.{gap_len};
    ghost use Rattle.cmap_tokens.specs.TokensLeft.{HasTokens, IsDecidedByFronts, EndInOrder, LeavesAfter, LeavesMalformed, LeavesNone, start_of, tokens_of};
    ghost use Rattle.cmap_tokens.specs.Numbers.{Integer};
    ghost use Rattle.cmap_tokens.specs.Scanner.{Cursor, ReadsToken, past, rest_of, spaced_decimal, spaced_pairs, spaced_parts, spaced_two_bytes};
    ghost use Rattle.cmap_tokens.specs.Strings.{WritesBytes, WritesParts, WritesTwoBytes};
    ghost use Rattle.cmap_tokens.specs.Tokens as tokens;
    ghost use Rattle.cmap_tokens.specs.TokenSeen.{malformed_seen, token_seen};

    /// A scanner before the first byte of a text.
    pub fn new(source: &'a [u8]) -> Self
        ensures scanner { result ≡ start_of source.now }

        // The tokens that are left at the start are all tokens of the text, if the text ends after them.
        ensures tokens { HasTokens source.now (tokens_of (start_of source.now)) }

        // The tokens end in order. The bytes up to and including an offset decide all tokens whose ends are
        // at most this offset.
        ensures order { EndInOrder (tokens_of (start_of source.now)) }
        ensures fronts { IsDecidedByFronts source.now }
    {
        Scanner { source, offset: 0 }
    }

    /// The number of bytes of the text that the scanner has passed.
    #[tactic(auto, using(crate::proofs::Fronts::passed_of))]
    pub fn offset(&self) -> usize
        ensures passed { result ≡ self.now.passed }
        ensures left { result ≡ (tokens_of self.now).passed }
    {
        self.offset
    }

    /// The offset at which the white space and comments that come next end. The next token, if any, begins
    /// there.
    pub fn next_start(&self) -> usize
        ensures { result ≡ self.now.passed + gap_len false (rest_of self.now) }
    {
        self.offset + gap_len(&self.source[self.offset..])
    }

    /// If no token comes next, the offset of the first byte that rules out a token. After the bytes up to
    /// and including this byte no token can come, whatever follows; after fewer bytes a token can still
    /// come. If no byte rules out a token, such as in white space and comments up to the end of the text or
    /// in an unclosed string, the offset is the length of the text.
    pub fn stop(&self) -> usize
        ensures first { HasNoFront (rest_of self.now) → StopsAt self.now result }
        ensures only { HasNoFront (rest_of self.now)
            → (other : ℕ) → StopsAt self.now other → other ≡ result }
        // If no token is left, this offset is the `stop` of the tokens that are left.
        ensures offset { (tokens_of self.now).tokens ≡ [] → result ≡ (tokens_of self.now).stop }
        ensures within { result ≤ length self.now.source }
    {
        let rest = &self.source[self.offset..];
        let gap = gap_len(rest);
        self.offset + gap + malformed_len(&rest[gap..])
    }

    /// Whether the seventh byte that is left is a `>`, as at the end of each string that `next_two_bytes`
    /// reads. Most files have such strings.
    #[inline(always)]
    pub fn may_have_two_bytes(&self) -> bool
        ensures { IsTrue result ↔ (slice_get (rest_of self.now) 6 ≡ Some (byte ">")) }
    {
        matches!(&self.source[self.offset..], [_, _, _, _, _, _, b'>', ..])
    }

    /// The big-endian number of the two bytes of the next string, if one white byte, `<`, four digits and
    /// `>` come next, as in most codes. Moves the scanner past the string. For any other text the answer is
    /// `None` and the scanner stays in place.
    #[inline(always)]
    pub fn next_two_bytes(&mut self) -> Option<u16>
        ensures token { IfSome result (λ number. (piece : List ℕ)
            × ReadsToken self.old (tokens.String piece) self.new × WritesTwoBytes piece number
            × LeavesAfter (tokens.String piece) self.old self.new) }
        ensures front { result ≡ spaced_two_bytes (rest_of self.old) }
        ensures moves { IfSome result (λ _. self.new ≡ past 7 self.old) }
        ensures stays { result ≡ None → self.new ≡ self.old }
    {
        let number = two_bytes(&self.source[self.offset..])?;
        self.offset += TWO_BYTES_LEN;
        Some(number)
    }

    /// The number of bytes that the next string stands for, and the big-endian number of these bytes, if one
    /// white byte, `<`, one to four pairs of digits and `>` come next. Moves the scanner past the string.
    /// For any other text the answer is `None` and the scanner stays in place.
    #[inline(always)]
    pub fn next_pairs(&mut self) -> Option<(u8, u32)>
        ensures token { IfSome result (λ first. (piece : List ℕ)
            × ReadsToken self.old (tokens.String piece) self.new × WritesBytes piece first.0 first.1
            × LeavesAfter (tokens.String piece) self.old self.new) }
        ensures front { result ≡ spaced_pairs (rest_of self.old) }
        ensures few { IfSome result (λ first. (1 ≤ first.0) × (first.0 ≤ 4)) }
        ensures moves { IfSome result (λ first. self.new ≡ past (3 + 2 * first.0) self.old) }
        ensures stays { result ≡ None → self.new ≡ self.old }
    {
        let (count, number) = spaced_pairs(&self.source[self.offset..])?;
        self.offset += 3 + 2 * usize::from(count);
        Some((count, number))
    }

    /// The number of bytes that the next string stands for, the big-endian number of the first four bytes,
    /// and the big-endian number of the other bytes, if one white byte, `<`, six or eight pairs of digits
    /// and `>` come next. Moves the scanner past the string. For any other text the answer is `None` and the
    /// scanner stays in place.
    #[inline(always)]
    pub fn next_parts(&mut self) -> Option<(u8, u32, u32)>
        ensures token { IfSome result (λ first. (piece : List ℕ)
            × ReadsToken self.old (tokens.String piece) self.new × WritesParts piece first.0 first.1 first.2
            × LeavesAfter (tokens.String piece) self.old self.new) }
        ensures front { result ≡ spaced_parts (rest_of self.old) }
        ensures few { IfSome result (λ first. (6 ≤ first.0) × (first.0 ≤ 8) × (first.0 % 2 ≡ 0)) }
        ensures moves { IfSome result (λ first. self.new ≡ past (3 + 2 * first.0) self.old) }
        ensures stays { result ≡ None → self.new ≡ self.old }
    {
        let (count, high, low) = spaced_parts(&self.source[self.offset..])?;
        self.offset += 3 + 2 * usize::from(count);
        Some((count, high, low))
    }

    /// The big-endian numbers of the next two strings of two bytes, if both strings have the form that
    /// `next_two_bytes` reads. Moves the scanner past both strings. For any other text the answer is `None`
    /// and the scanner stays in place.
    #[inline(always)]
    pub fn next_two_strings(&mut self) -> Option<(u16, u16)>
        ensures tokens { IfSome result (λ found. (between : Cursor) × (first second : List ℕ)
            × ReadsToken self.old (tokens.String first) between × WritesTwoBytes first found.0
            × LeavesAfter (tokens.String first) self.old between
            × ReadsToken between (tokens.String second) self.new × WritesTwoBytes second found.1
            × LeavesAfter (tokens.String second) between self.new) }
        ensures stays { result ≡ None → self.new ≡ self.old }
    {
        let (first, second) = two_strings(&self.source[self.offset..])?;
        self.offset += 2 * TWO_BYTES_LEN;
        Some((first, second))
    }

    /// The big-endian number of the next string of two bytes, and the decimal number after the string. The
    /// string has the form that `next_two_bytes` reads. The decimal number has three to five digits, with
    /// one white byte before and one after; two white bytes may stand before three digits. Moves the scanner
    /// past both tokens. For any other text, and near the end of the text, the answer is `None` and the
    /// scanner stays in place.
    #[inline(always)]
    pub fn next_two_bytes_and_decimal(&mut self) -> Option<(u16, u64)>
        ensures tokens { IfSome result (λ found. (between : Cursor) × (piece : List ℕ)
            × ReadsToken self.old (tokens.String piece) between × WritesTwoBytes piece found.0
            × LeavesAfter (tokens.String piece) self.old between
            × ReadsToken between (tokens.Numeral (Integer (pos found.1))) self.new
            × LeavesAfter (tokens.Numeral (Integer (pos found.1))) between self.new) }
        ensures few { IfSome result (λ found. found.1 < 2 ^ 32) }
        ensures stays { result ≡ None → self.new ≡ self.old }
    {
        let (bytes, number, len) = two_bytes_and_decimal(&self.source[self.offset..])?;
        self.offset += TWO_BYTES_LEN + len;
        Some((bytes, number))
    }

    /// The big-endian numbers of the next two strings of two bytes, and the decimal number after the
    /// strings, in the forms that `next_two_bytes_and_decimal` reads. Moves the scanner past all three
    /// tokens. For any other text, and near the end of the text, the answer is `None` and the scanner stays
    /// in place.
    #[inline(always)]
    pub fn next_two_strings_and_decimal(&mut self) -> Option<(u16, u16, u64)>
        ensures tokens { IfSome result (λ found. (first second : Cursor) × (low high : List ℕ)
            × ReadsToken self.old (tokens.String low) first × WritesTwoBytes low found.0
            × LeavesAfter (tokens.String low) self.old first
            × ReadsToken first (tokens.String high) second × WritesTwoBytes high found.1
            × LeavesAfter (tokens.String high) first second
            × ReadsToken second (tokens.Numeral (Integer (pos found.2))) self.new
            × LeavesAfter (tokens.Numeral (Integer (pos found.2))) second self.new) }
        ensures few { IfSome result (λ found. found.2 < 2 ^ 32) }
        ensures stays { result ≡ None → self.new ≡ self.old }
    {
        let (low, high, number, len) = two_strings_and_decimal(&self.source[self.offset..])?;
        self.offset += 2 * TWO_BYTES_LEN + len;
        Some((low, high, number))
    }

    /// The next number, if one white byte, one to 18 decimal digits and a byte that isn't regular come next.
    /// Moves the scanner past the digits. For any other text the answer is `None` and the scanner stays in
    /// place.
    #[inline(always)]
    pub fn next_decimal(&mut self) -> Option<u64>
        ensures token { IfSome result (λ number.
            ReadsToken self.old (tokens.Numeral (Integer (pos number))) self.new
            × LeavesAfter (tokens.Numeral (Integer (pos number))) self.old self.new) }
        ensures front { MatchOption result (spaced_decimal (rest_of self.old) ≡ None) (λ number. (len : ℕ)
            × (spaced_decimal (rest_of self.old) ≡ Some (number, len)) × (self.new ≡ past (1 + len) self.old)) }
        ensures few { IfSome result (λ number. number < 10 ^ 18) }
        ensures stays { result ≡ None → self.new ≡ self.old }
    {
        let rest = &self.source[self.offset..];
        if let Some((number, len)) = short_decimal(rest) {
            self.offset += 1 + len;
            return Some(number);
        }
        self.next_other_decimal()
    }

    /// The answer of `next_decimal`, for a number of one to 18 digits.
    #[inline(never)]
    fn next_other_decimal(&mut self) -> Option<u64>
        ensures token { IfSome result (λ number.
            ReadsToken self.old (tokens.Numeral (Integer (pos number))) self.new
            × LeavesAfter (tokens.Numeral (Integer (pos number))) self.old self.new) }
        ensures front { MatchOption result (spaced_decimal (rest_of self.old) ≡ None) (λ number. (len : ℕ)
            × (spaced_decimal (rest_of self.old) ≡ Some (number, len)) × (self.new ≡ past (1 + len) self.old)) }
        ensures few { IfSome result (λ number. number < 10 ^ 18) }
        ensures stays { result ≡ None → self.new ≡ self.old }
    {
        let (number, len) = blank_decimal(&self.source[self.offset..])?;
        self.offset += 1 + len;
        Some(number)
    }

    /// The next number, if two white bytes, one to 18 decimal digits and a byte that isn't regular come
    /// next, as in columns of numbers. Moves the scanner past the digits. For any other text the answer is
    /// `None` and the scanner stays in place.
    #[inline(never)]
    pub fn next_padded_decimal(&mut self) -> Option<u64>
        ensures token { IfSome result (λ number.
            ReadsToken self.old (tokens.Numeral (Integer (pos number))) self.new
            × LeavesAfter (tokens.Numeral (Integer (pos number))) self.old self.new) }
        ensures few { IfSome result (λ number. number < 10 ^ 18) }
        ensures stays { result ≡ None → self.new ≡ self.old }
    {
        let (number, len) = padded_decimal(&self.source[self.offset..])?;
        self.offset += 1 + (1 + len);
        Some(number)
    }

    /// The next token, whose slices are slices of the text. `None` if only white space and comments are
    /// left.
    ///
    /// A token moves the scanner to the byte after the token; the end of the text and an error leave the
    /// scanner in place. So each call after an error gives the same error.
    pub fn next_token(&mut self) -> Result<Option<Token<'a>>, Malformed>
        // The token that is read is the only first token of the rest of the text.
        ensures token { IfOk result
            (λ found. IfSome found (λ token. ReadsToken self.old (token_seen token) self.new)) }
        ensures end { (result ≡ Ok None) ↔ IsBlank (rest_of self.old) }
        ensures malformed { IsErr result ↔ IsMalformed (rest_of self.old) }

        ensures end_stays { result ≡ Ok None → self.new ≡ self.old }
        ensures err_stays { OnErr result (self.new ≡ self.old) }

        // The effect on the list of the tokens that are left.
        ensures left { MatchResult result (λ found. MatchOption found (LeavesNone true self.old)
            (λ token. LeavesAfter (token_seen token) self.old self.new))
            (λ malformed. LeavesMalformed (malformed_seen malformed) self.old) }
    {
        let Some((token, len)) = first_token(&self.source[self.offset..])? else {
            return Ok(None);
        };
        self.offset += len;
        Ok(Some(token))
    }
}
