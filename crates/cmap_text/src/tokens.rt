//! The tokens of a text in order, and the values of single tokens.

ghost use Rattle.std.specs.Prelude.{◌≡◌, ◌+◌, ◌%◌, ◌++◌, ◌<◌, ◌≤◌, ◌^◌, ℕ, List, [], ◌∷◌, bytes_eq, length, min, pos, Ok, Some, IfOk, MatchOption, option_and_then, option_map};
ghost use Rattle.std.specs.Int.Digits.{number_from_digits};
ghost use Rattle.std.specs.List.{AllByRecursion, list_any};
ghost use Rattle.std.specs.Option.{option_copied};
ghost use Rattle.cmap_values.specs.UnitsSeen.{units_seen};
ghost use Rattle.cmap_values.specs.declared.fault.Reason.TheVariants.{CidExpected, TextExpected};
ghost use Rattle.cmap_values.specs.declared.fault.Reason.TheVariants as reason;
ghost use Rattle.cmap_tokens.specs.Texts.{units_of};
ghost use Rattle.cmap_tokens.specs.Numbers.{Integer};
ghost use Rattle.cmap_tokens.specs.Tokens.{Numeral, String};
ghost use Rattle.cmap_tokens.specs.TokenSeen.{malformed_seen, string_raw, token_seen};
ghost use Rattle.cmap_tokens.specs.TokensLeft.{Left, start_of, tokens_of};
ghost use Rattle.cmap_text.specs.EntriesSeen.{ReadsAs};
ghost use Rattle.cmap_text.specs.Salvage.{empty_text_of};
ghost use Rattle.cmap_text.specs.TextFiles.{literal_head, other};
ghost use Rattle.cmap_text.specs.TextReading.{cid_in, code_fault, code_in, code_of, destination_in, is_executable, next_cid, next_code, next_destination, value_in};
ghost use Rattle.cmap_text.specs.TextSeen.{code_seen};
ghost use Rattle.cmap_text.specs.TokenParsers.{malformed_reason, next_in, or_wrong, run, token_in};

use crate::wrong_token::{WrongToken, no_token, wrong};
use cmap_tokens::token::{Malformed, Number, Scanner, StringToken, Token};
use cmap_tokens::utf16::units;
use cmap_values::code_length::{CodeLength, read_code};
use cmap_values::fault::{Fault, Reason};
use cmap_values::names::Cid;
use cmap_values::units::Units;
use std::alloc::{AllocError, Global};
use std::marker::Model;

/// A code: its length in bytes, and its number.
#[derive(Clone, Copy)]
pub(crate) struct Code {
    pub(crate) len: CodeLength,
    pub(crate) number: u32,
}

/// Reads the tokens of a text.
#[derive(Drop)]
pub(crate) struct TokenReader<'d> {
    scanner: Scanner<'d>,
    decoder: Decoder,
}

// Contracts see the tokens that are left of the text.
impl<'d> Model for TokenReader<'d> {
    ghost use Rattle.cmap_tokens.specs.TokensLeft.{Left, tokens_of};

    ghost Value = { Left };

    ghost view = { λ reader. tokens_of reader.scanner };
}

impl<'d> TokenReader<'d> {
    pub(crate) fn new(alloc: Global, text: &'d [u8]) -> Self
        ensures { result ≡ tokens_of (start_of text.now) }
    {
        TokenReader {
            scanner: Scanner::new(text),
            decoder: Decoder::new(alloc),
        }
    }

    /// The next token, `None` at the end of the text.
    pub(crate) fn next_token(&mut self) -> Result<Option<Token<'d>>, Fault<WrongToken>>
        ensures { ReadsAs (next_in self.old) (λ found. (option_map token_seen found, self.new)) self.new result }
    {
        match self.scanner.next_token() {
            Ok(found) => Ok(found),
            Err(malformed) => Err(no_token(malformed_reason(malformed))),
        }
    }

    /// The next token, within a section. The end of the text is refused.
    pub(crate) fn required_token(&mut self) -> Result<Token<'d>, Fault<WrongToken>>
        ensures { ReadsAs (token_in self.old) (λ token. (token_seen token, self.new)) self.new result }
    {
        match self.scanner.next_token() {
            Ok(Some(token)) => Ok(token),
            Ok(None) => Err(no_token(Reason::EndWithinSection)),
            Err(malformed) => Err(no_token(malformed_reason(malformed))),
        }
    }

    /// The code that a token is: a string of one to four bytes.
    pub(crate) fn code(&mut self, token: &Token<'_>) -> Result<Code, Fault<WrongToken>>
        ensures { ReadsAs (or_wrong (code_fault (token_seen token.now)) (code_in (token_seen token.now)) (token_seen token.now) self.old)
            (λ code. (code_seen code, self.new)) self.new result }
    {
        match self.decoder.code(token) {
            Ok(Some(code)) => Ok(code),
            Ok(None) => Err(wrong(code_fault(token))),
            Err(AllocError) => Err(Fault::Memory),
        }
    }

    /// Whether a code of two bytes in the most common form may come next.
    #[inline(always)]
    pub(crate) fn may_have_two_byte_code(&self) -> bool {
        self.scanner.may_have_two_bytes()
    }

    /// The code of two bytes that comes next, if the code has the most common form; `None` for any other
    /// token.
    #[inline(always)]
    pub(crate) fn two_byte_code(&mut self) -> Option<Code>
        ensures { MatchOption result (self.new ≡ self.old) (λ code. (piece : List ℕ)
            × (token_in self.old ≡ Ok (String piece, self.new))
            × (code_in (String piece) ≡ Some (code_seen code))) }
    {
        let number = self.scanner.next_two_bytes()?;
        Some(two_byte_code(number))
    }

    /// The code of two bytes and the CID that come next, if both have the most common form; `None` for any
    /// other tokens.
    #[inline(always)]
    pub(crate) fn two_byte_code_and_cid(&mut self) -> Option<(Code, Cid)>
        ensures { MatchOption result (self.new ≡ self.old) (λ found. (piece : List ℕ) × (between : Left)
            × (token_in self.old ≡ Ok (String piece, between))
            × (code_in (String piece) ≡ Some (code_seen found.0))
            × (run next_cid between ≡ Ok (found.1, self.new))) }
    {
        let (number, cid) = self.scanner.next_two_bytes_and_decimal()?;
        Some((two_byte_code(number), cid as u32))
    }

    /// The two codes of two bytes and the CID that come next, if all have the most common form; `None` for
    /// any other tokens.
    #[inline(always)]
    pub(crate) fn two_byte_range_and_cid(&mut self) -> Option<(Code, Code, Cid)>
        ensures { MatchOption result (self.new ≡ self.old) (λ found. (low high : List ℕ) × (first second : Left)
            × (token_in self.old ≡ Ok (String low, first))
            × (code_in (String low) ≡ Some (code_seen found.0))
            × (token_in first ≡ Ok (String high, second))
            × (code_in (String high) ≡ Some (code_seen found.1))
            × (run next_cid second ≡ Ok (found.2, self.new))) }
    {
        let (low, high, cid) = self.scanner.next_two_strings_and_decimal()?;
        let start = two_byte_code(low);
        let end = two_byte_code(high);
        Some((start, end, cid as u32))
    }

    /// The code of two bytes and the destination of two bytes that come next, if both have the most common
    /// form; `None` for any other tokens.
    #[inline(always)]
    pub(crate) fn two_byte_code_and_unit(&mut self) -> Option<(Code, u16)>
        ensures { MatchOption result (self.new ≡ self.old) (λ found. (piece text : List ℕ) × (between : Left)
            × (token_in self.old ≡ Ok (String piece, between))
            × (code_in (String piece) ≡ Some (code_seen found.0))
            × (token_in between ≡ Ok (String text, self.new))
            × (destination_in (String text) ≡ Some (found.1 ∷ []))) }
    {
        let (number, unit) = self.scanner.next_two_strings()?;
        Some((two_byte_code(number), unit))
    }

    /// The code that comes next, if the code has the most common form; `None` for any other token.
    #[inline(always)]
    pub(crate) fn plain_code(&mut self) -> Option<Code>
        ensures { MatchOption result (self.new ≡ self.old) (λ code. (piece : List ℕ)
            × (token_in self.old ≡ Ok (String piece, self.new))
            × (code_in (String piece) ≡ Some (code_seen code))) }
    {
        if let Some(code) = self.two_byte_code() {
            return Some(code);
        }
        self.short_code()
    }

    /// The code of any length that comes next, if its digits have the most common form; `None` for any
    /// other token.
    #[inline(never)]
    pub(crate) fn short_code(&mut self) -> Option<Code>
        ensures { MatchOption result (self.new ≡ self.old) (λ code. (piece : List ℕ)
            × (token_in self.old ≡ Ok (String piece, self.new))
            × (code_in (String piece) ≡ Some (code_seen code))) }
    {
        let (count, number) = self.scanner.next_pairs()?;
        let len = CodeLength::of(count)?;
        Some(Code { len, number })
    }

    /// The code that comes next.
    #[inline(always)]
    pub(crate) fn next_code(&mut self) -> Result<Code, Fault<WrongToken>>
        ensures { ReadsAs (run next_code self.old) (λ code. (code_seen code, self.new)) self.new result }
    {
        if let Some(code) = self.plain_code() {
            return Ok(code);
        }
        match self.required_token() {
            Ok(token) => self.code(&token),
            // With `?` the reading of a file takes up to 2 % more instructions.
            Err(fault) => Err(fault),
        }
    }

    /// The units of the destination that a token is: a string that isn't empty.
    pub(crate) fn destination(&mut self, token: &Token<'_>) -> Result<Units, Fault<WrongToken>>
        ensures { ReadsAs (or_wrong TextExpected (destination_in (token_seen token.now)) (token_seen token.now) self.old)
            (λ units. (units_seen units, self.new)) self.new result }
    {
        match self.decoder.destination(token) {
            Ok(Some(units)) => Ok(units),
            Ok(None) => Err(wrong(Reason::TextExpected)),
            Err(AllocError) => Err(Fault::Memory),
        }
    }

    /// The units of the destination that comes next, if the destination has the most common form; `None`
    /// for any other token.
    #[inline(never)]
    pub(crate) fn plain_destination(&mut self) -> Option<Units>
        ensures { MatchOption result (self.new ≡ self.old) (λ units. (piece : List ℕ)
            × (token_in self.old ≡ Ok (String piece, self.new))
            × (destination_in (String piece) ≡ Some (units_seen units))) }
    {
        if let Some(number) = self.scanner.next_two_bytes() {
            return Some(units_of_number(2, u32::from(number)));
        }
        self.longer_destination()
    }

    /// The answer of `plain_destination` for a destination that `next_two_bytes` doesn't read.
    #[inline(always)]
    pub(crate) fn longer_destination(&mut self) -> Option<Units>
        ensures { MatchOption result (self.new ≡ self.old) (λ units. (piece : List ℕ)
            × (token_in self.old ≡ Ok (String piece, self.new))
            × (destination_in (String piece) ≡ Some (units_seen units))) }
    {
        if let Some((count, number)) = self.scanner.next_pairs() {
            return Some(units_of_number(count, number));
        }
        let (count, high, low) = self.scanner.next_parts()?;
        Some(units_of_parts(count, high, low))
    }

    /// The units of the destination that comes next.
    #[inline(always)]
    pub(crate) fn next_destination(&mut self) -> Result<Units, Fault<WrongToken>>
        ensures { ReadsAs (run next_destination self.old)
            (λ units. (units_seen units, self.new)) self.new result }
    {
        if let Some(units) = self.plain_destination() {
            return Ok(units);
        }
        match self.required_token() {
            Ok(token) => self.destination(&token),
            // With `?` the reading of a file takes up to 2 % more instructions.
            Err(fault) => Err(fault),
        }
    }

    /// The CID that comes next: an unsigned 32-bit integer.
    #[inline(always)]
    pub(crate) fn next_cid(&mut self) -> Result<Cid, Fault<WrongToken>>
        ensures { ReadsAs (run next_cid self.old) (λ cid. (cid, self.new)) self.new result }
    {
        if let Some(number) = self.scanner.next_decimal() {
            return cid_of_number(number);
        }
        if let Some(number) = self.scanner.next_padded_decimal() {
            return cid_of_number(number);
        }
        match self.required_token() {
            Ok(token) => cid_of(&token).ok_or(wrong(Reason::CidExpected)),
            // With `?` the reading of a file takes up to 2 % more instructions.
            Err(fault) => Err(fault),
        }
    }

    /// How many bytes of the text have been read.
    pub(crate) fn offset(&self) -> usize
        ensures { result ≡ self.now.passed }
    {
        self.scanner.offset()
    }

    /// The offset of the byte that rules out a next token, if no token comes next.
    pub(crate) fn stop(&self) -> usize
        ensures { self.now.tokens ≡ [] → result ≡ self.now.stop }
    {
        self.scanner.stop()
    }
}

/// Decodes strings.
#[derive(Drop)]
pub(crate) struct Decoder {
    alloc: Global,
    /// The bytes of the last string that was decoded.
    bytes: Vec<u8>,
}

impl Decoder {
    pub(crate) fn new(alloc: Global) -> Self {
        Decoder {
            alloc,
            bytes: Vec::new(alloc),
        }
    }

    /// The code that a token is: a string of one to four bytes.
    pub(crate) fn code(&mut self, token: &Token<'_>) -> Result<Option<Code>, AllocError>
        ensures { IfOk result (λ found. option_map code_seen found ≡ code_in (token_seen token.now)) }
    {
        match token {
            Token::String(string) => self.string_code(string),
            _ => Ok(None),
        }
    }

    /// The code that a string is, if the string has one to four bytes.
    fn string_code(&mut self, string: &StringToken<'_>) -> Result<Option<Code>, AllocError>
        ensures { IfOk result (λ found. option_map code_seen found ≡ code_in (String (string_raw string.now))) }
    {
        if let Some((count, number)) = string.plain_number() {
            let Some(len) = CodeLength::of(count) else {
                return Ok(None);
            };
            return Ok(Some(Code { len, number }));
        }
        string.decode_into(&mut self.bytes)?;
        Ok(code_of(&self.bytes))
    }

    /// The units of the destination that a token is: a string that isn't empty.
    pub(crate) fn destination(&mut self, token: &Token<'_>) -> Result<Option<Units>, AllocError>
        ensures { IfOk result (λ found. option_map units_seen found ≡ destination_in (token_seen token.now)) }
    {
        match token {
            Token::String(string) => self.string_units(string),
            _ => Ok(None),
        }
    }

    /// The units of the destination that a string is, if the string isn't empty.
    fn string_units(&mut self, string: &StringToken<'_>) -> Result<Option<Units>, AllocError>
        ensures { IfOk result (λ found. option_map units_seen found ≡ destination_in (String (string_raw string.now))) }
    {
        if let Some((len, number)) = string.plain_number() {
            return Ok(Some(units_of_number(len, number)));
        }
        string.decode_into(&mut self.bytes)?;
        if self.bytes.is_empty() {
            return Ok(None);
        }
        Ok(Some(units_of_bytes(self.alloc, &self.bytes)?))
    }

    /// The empty text, if a token is an empty string.
    pub(crate) fn empty_text(&mut self, token: &Token<'_>) -> Result<Option<Units>, AllocError>
        ensures { IfOk result (λ found. option_map units_seen found ≡ option_and_then empty_text_of (value_in (token_seen token.now))) }
    {
        match token {
            Token::String(string) => self.empty_string_text(string),
            _ => Ok(None),
        }
    }

    /// The empty text, if a string is empty.
    fn empty_string_text(&mut self, string: &StringToken<'_>) -> Result<Option<Units>, AllocError>
        ensures { IfOk result (λ found. option_map units_seen found ≡ option_and_then empty_text_of (value_in (String (string_raw string.now)))) }
    {
        string.decode_into(&mut self.bytes)?;
        Ok(self.bytes.is_empty().then_some(Units::Empty))
    }
}

/// Why a token is no code.
pub(crate) fn code_fault(token: &Token<'_>) -> Reason
    ensures { result ≡ code_fault (token_seen token.now) }
{
    match token {
        Token::String(_) => Reason::CodeLength,
        _ => Reason::CodeExpected,
    }
}

/// The reason of the refusal of a text where no token comes.
pub(crate) fn malformed_reason(malformed: Malformed) -> Reason
    ensures { result ≡ malformed_reason (malformed_seen malformed) }
{
    match malformed {
        Malformed::UnclosedText | Malformed::UnclosedHexadecimal => Reason::UnclosedString,
        Malformed::WrongDigit => Reason::WrongDigit,
        Malformed::Stray => Reason::StrayDelimiter,
    }
}

/// The code of two bytes that write this number.
#[inline(always)]
fn two_byte_code(number: u16) -> Code
    ensures { code_seen result ≡ record { len = 2; number = number } }
{
    Code {
        len: CodeLength::Two,
        number: u32::from(number),
    }
}

/// The code of one to four bytes.
fn code_of(bytes: &[u8]) -> Option<Code>
    ensures { option_map code_seen result ≡ code_of bytes.now }
{
    let (len, number) = read_code(bytes)?;
    Some(Code { len, number })
}

/// The units of a destination of these bytes.
fn units_of_bytes(alloc: Global, bytes: &[u8]) -> Result<Units, AllocError>
    ensures { IfOk result (λ found. units_seen found ≡ units_of bytes.now) }
{
    let units = units(alloc, bytes)?;
    Units::from_slice(alloc, &units)
}

/// The units of a destination of `len` bytes, one to four. `number` is the big-endian number of these
/// bytes.
fn units_of_number(len: u8, number: u32) -> Units
    ensures { (bytes : List ℕ) → AllByRecursion (λ b. b < 2 ^ 8) bytes → 1 ≤ len → len ≤ 4 → len ≡ length bytes
        → number ≡ number_from_digits 256 bytes → units_seen result ≡ units_of bytes }
{
    let (high, low) = ((number / 0x1_0000) as u16, (number % 0x1_0000) as u16);
    if len <= 2 {
        Units::One([low])
    } else {
        Units::Two([high, low])
    }
}

/// The units of a destination of `len` bytes, six or eight. `high` is the big-endian number of the first
/// four bytes, and `low` is the big-endian number of the other bytes.
fn units_of_parts(len: u8, high: u32, low: u32) -> Units
    ensures { (front rest : List ℕ) → AllByRecursion (λ b. b < 2 ^ 8) front → AllByRecursion (λ b. b < 2 ^ 8) rest
        → length front ≡ 4 → len ≡ 4 + length rest → 6 ≤ len → len ≤ 8 → len % 2 ≡ 0
        → high ≡ number_from_digits 256 front → low ≡ number_from_digits 256 rest → units_seen result ≡ units_of (front ++ rest) }
{
    let (first, second) = ((high / 0x1_0000) as u16, (high % 0x1_0000) as u16);
    let (third, fourth) = ((low / 0x1_0000) as u16, (low % 0x1_0000) as u16);
    if len <= 6 {
        Units::Three([first, second, fourth])
    } else {
        Units::Four([first, second, third, fourth])
    }
}

/// The CID that an unsigned number below 10^18 is; a number above 32 bits is refused.
fn cid_of_number(number: u64) -> Result<Cid, Fault<WrongToken>>
    requires { number < 10 ^ 18 }
    ensures { (next : Left) → ReadsAs (or_wrong CidExpected (cid_in (Numeral (Integer (pos number))))
        (Numeral (Integer (pos number))) next) (λ cid. (cid, next)) next result }
{
    match u32::try_from(number) {
        Ok(cid) => Ok(cid),
        Err(_) => Err(wrong(Reason::CidExpected)),
    }
}

/// The CID that a token is.
pub(crate) fn cid_of(token: &Token<'_>) -> Option<Cid>
    ensures { result ≡ cid_in (token_seen token.now) }
{
    match token {
        Token::Number(Number::Integer(n)) => u32::try_from(*n).ok(),
        _ => None,
    }
}

/// Whether a token is this executable name.
pub(crate) fn is_executable(token: &Token<'_>, name: &[u8]) -> bool
    ensures { result ≡ is_executable name.now (token_seen token.now) }
{
    match token {
        Token::Name(found) => !found.is_literal() && found.as_bytes() == name,
        _ => false,
    }
}

/// The bytes of a literal name.
pub(crate) fn literal_name<'d>(token: &Token<'d>) -> Option<&'d [u8]>
    ensures { option_copied result ≡ literal_head (other (token_seen token.now)) }
{
    match token {
        Token::Name(name) if name.is_literal() => Some(name.as_bytes()),
        _ => None,
    }
}
