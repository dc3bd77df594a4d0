//! Rounds of work on a file, and how long they take.

use crate::bench::request::Mode;
use cmap_queries::failure::Failure;
use hayro_cmap::bcmap::Bundle;
use hayro_cmap::{BfString, CMap, Fault};
use std::alloc::{AllocError, Global};
use std::time::{Clock, Instant};

/// One more than the last code of two bytes.
const CODE_COUNT: u32 = 0x1_0000;

/// The time that rounds took, and their checksum.
#[derive(Clone, Copy)]
pub struct Measured {
    /// The nanoseconds of the rounds alone; 0 without rounds.
    pub nanos: u128,
    /// The number of rounds that accepted the file, or the sum of the values that one round of lookups finds.
    pub checksum: u64,
}

/// What a round works on.
#[derive(Drop)]
pub enum Work<'d> {
    /// The bytes of a file, to be read.
    Parse(&'d [u8]),
    /// A map whose CIDs are looked up.
    Lookup(CMap),
    /// A map whose texts are looked up.
    Bf(CMap),
    /// A map by which a string is cut into codes, and the string.
    Decode(CMap, Vec<u8>),
}

impl<'d> Work<'d> {
    /// The work of a mode on the bytes of a file. For lookups the file is read here.
    pub fn new(alloc: Global, mode: Mode, data: &'d [u8]) -> Result<Work<'d>, Failure> {
        match mode {
            Mode::Parse => Ok(Work::Parse(data)),
            Mode::Lookup => Ok(Work::Lookup(parse(alloc, data)?)),
            Mode::Bf => Ok(Work::Bf(parse(alloc, data)?)),
            Mode::Decode => Ok(Work::Decode(parse(alloc, data)?, all_codes(alloc)?)),
        }
    }

    /// Makes this many rounds. Lookups have a sum even for 0 rounds, since one round is made before the clock is read.
    pub fn measure<C: Clock>(
        &self,
        clock: &C,
        alloc: Global,
        rounds: u64,
    ) -> Result<Measured, Failure> {
        let checksum = match self {
            Work::Parse(_) => 0,
            Work::Lookup(_) | Work::Bf(_) | Work::Decode(..) => self.round(alloc, 0)?,
        };
        if rounds == 0 {
            return Ok(Measured { nanos: 0, checksum });
        }
        let start = Instant::now(clock)?;
        let checksum = self.repeat(alloc, checksum, rounds)?;
        Ok(Measured {
            nanos: start.elapsed(clock)?.as_nanos(),
            checksum,
        })
    }

    /// The checksum after this many more rounds.
    fn repeat(&self, alloc: Global, before: u64, rounds: u64) -> Result<u64, Failure> {
        let mut checksum = before;
        for _ in 0..rounds {
            checksum = self.round(alloc, checksum)?;
        }
        Ok(checksum)
    }

    /// The checksum after one more round.
    fn round(&self, alloc: Global, before: u64) -> Result<u64, Failure> {
        match self {
            Work::Parse(data) => Ok(before.wrapping_add(accepted(alloc, data)?)),
            Work::Lookup(map) => Ok(cid_sum(map)),
            Work::Bf(map) => Ok(text_sum(alloc, map)?),
            Work::Decode(map, text) => Ok(decoded_sum(map, text)),
        }
    }
}

/// 1 if a file is accepted, and 0 if it is refused.
fn accepted(alloc: Global, data: &[u8]) -> Result<u64, Failure> {
    match parse(alloc, data) {
        Ok(_map) => Ok(1),
        Err(Failure::Refused) => Ok(0),
        Err(failure) => Err(failure),
    }
}

/// The map of a file that uses no other file.
fn parse(alloc: Global, data: &[u8]) -> Result<CMap, Failure> {
    let no_files: Option<&Bundle<'_>> = None;
    match CMap::parse_from(alloc, None, data, None, &no_files) {
        Ok(map) => Ok(map),
        Err(Fault::Refused(_refusal)) => Err(Failure::Refused),
        Err(Fault::Memory) => Err(Failure::NoMemory),
    }
}

/// The sum of the CIDs of all codes of two bytes; a code without a CID counts 0.
fn cid_sum(map: &CMap) -> u64 {
    let mut sum: u64 = 0;
    for code in 0..CODE_COUNT {
        let cid = map.lookup_cid_code(code, 2).unwrap_or(0);
        sum = sum.wrapping_add(u64::from(cid));
    }
    sum
}

/// A string of all codes of two bytes, in order.
fn all_codes(alloc: Global) -> Result<Vec<u8>, AllocError> {
    let mut text = Vec::new(alloc);
    for code in 0..=u16::MAX {
        text.extend_from_slice(&code.to_be_bytes())?;
    }
    Ok(text)
}

/// The sum of the CIDs of the codes that a string is cut into; a code without a CID counts 0.
fn decoded_sum(map: &CMap, text: &[u8]) -> u64 {
    let mut sum: u64 = 0;
    let mut left = text;
    for _ in 0..text.len() {
        let Some(next) = map.layers().next_code(left) else {
            break;
        };
        let cid = map.lookup_cid_code(next.code, next.byte_len).unwrap_or(0);
        sum = sum.wrapping_add(u64::from(cid));
        left = &left[usize::from(next.byte_len)..];
    }
    sum
}

/// The sum of the first characters of the texts of all codes of two bytes; a code without a text counts 0.
fn text_sum(alloc: Global, map: &CMap) -> Result<u64, AllocError> {
    let mut sum: u64 = 0;
    for code in 0..CODE_COUNT {
        sum = sum.wrapping_add(first_char(alloc, map, code)?);
    }
    Ok(sum)
}

/// The first character of the text of a code; 0 without a text.
fn first_char(alloc: Global, map: &CMap, code: u32) -> Result<u64, AllocError> {
    match map.lookup_bf_string(alloc, code)? {
        Some(BfString::Char(first)) => Ok(u64::from(first)),
        Some(BfString::String(text)) => Ok(text.chars().next().map_or(0, u64::from)),
        None => Ok(0),
    }
}
