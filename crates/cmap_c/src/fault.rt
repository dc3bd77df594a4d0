//! Why a file gives no map, by the numbers of the header.

ghost use Rattle.std.specs.Prelude.{◌≡◌, ◌≤◌, length};
ghost use Rattle.cmap_values.specs.NamesSeen.{names_seen};
ghost use Rattle.cmap_values.specs.Outcomes.{Finds, RefusesWith};
ghost use Rattle.cmap_c.specs.Faults.{HasNames, HasNumbers, IsToldFrom, ending_of, fault_numbers, numbers_of, possible_cause, possible_reason, reason_number, segment_number, segment_numbered, segment_of, status_of};

use cmap_handles::names::joined;
use cmap_handles::room::fill;
use cmap_handles::status::Status;
use cmap_load::{Cause, Refusal};
use cmap_values::fault::{Fault, Reason, Segment, Stop};
use std::alloc::Global;

/// The most names that lead to a file at fault.
const MOST_NAMES: usize = 16;

/// Why a file gives no map, by the numbers of the header. All its bytes are in a field.
#[repr(C)]
#[derive(Clone, Copy)]
pub struct FaultNumbers {
    /// What is wrong with the file at fault.
    pub(crate) cause: u32,
    /// What is wrong where reading of a malformed file stopped; else 0.
    pub(crate) reason: u16,
    /// The segment that the reason names, or 0.
    pub(crate) segment: u16,
    /// The offset in bytes where reading of a malformed file stopped; else 0.
    pub(crate) offset: usize,
    /// The number of names that lead to the file at fault; 0 for the top file.
    pub(crate) names: usize,
    /// The length in bytes of each of these names; the other entries are 0.
    pub(crate) name_lens: [usize; MOST_NAMES],
}

impl FaultNumbers {
    /// The numbers of a fault in the file that these names lead to.
    pub(crate) fn of(names: &[&[u8]], cause: Cause) -> FaultNumbers
        requires { length names.now ≤ 16 }
        ensures numbers { HasNumbers result cause }
        ensures names { HasNames result (names_seen names.now) }
        ensures whole { result ≡ fault_numbers (names_seen names.now) cause }
    {
        let mut name_lens = [0; MOST_NAMES];
        fill(&names, &mut name_lens);
        let (cause, reason, segment, offset) = numbers_of(cause);
        FaultNumbers {
            cause,
            reason,
            segment,
            offset,
            names: names.len(),
            name_lens,
        }
    }

    /// The cause that has these numbers. The names don't count.
    pub(crate) fn cause(&self) -> Option<Cause>
        ensures { Finds (HasNumbers self.now) (λ cause. cause) result }
    {
        let found = self.possible_cause()?;
        let (cause, reason, segment, offset) = numbers_of(found);
        let same = self.cause == cause
            && self.reason == reason
            && self.segment == segment
            && self.offset == offset;
        if same { Some(found) } else { None }
    }

    /// The one cause that may have these numbers.
    fn possible_cause(&self) -> Option<Cause>
        ensures { result ≡ possible_cause self.now }
    {
        match (self.cause, possible_reason(self.reason, self.segment)) {
            (1, Some(reason)) => Some(Cause::Malformed(Stop {
                offset: self.offset,
                reason,
            })),
            (2, _) => Some(Cause::NoFile),
            (3, _) => Some(Cause::ChainLength),
            (4, _) => Some(Cause::OverBudget),
            _ => None,
        }
    }
}

/// A refusal, as C gets it.
#[derive(Drop)]
pub(crate) struct Told {
    pub(crate) cause: Cause,
    pub(crate) fault: FaultNumbers,
    /// The names, one after another.
    pub(crate) names: Vec<u8>,
}

impl Told {
    /// A refusal, as C gets it, or the failure of memory.
    pub(crate) fn of(alloc: Global, fault: Fault<Refusal<'_>>) -> Fault<Told>
        requires { RefusesWith (λ refusal. length refusal.names.items ≤ 16) fault }
        ensures { IsToldFrom fault.entry result }
    {
        let Fault::Refused(refusal) = fault else {
            return Fault::Memory;
        };
        match joined(alloc, &refusal.names) {
            Ok(names) => Fault::Refused(Told {
                cause: refusal.cause,
                fault: FaultNumbers::of(&refusal.names, refusal.cause),
                names,
            }),
            Err(_) => Fault::Memory,
        }
    }
}

/// The status of a call that finds no map.
pub(crate) fn status_of(cause: Cause) -> Status
    ensures { result ≡ status_of cause }
{
    match cause {
        Cause::Malformed(_) | Cause::NoFile | Cause::ChainLength => Status::Refused,
        Cause::OverBudget => Status::OverBudget,
    }
}

/// The status of a call for which a file is refused or memory runs out.
pub(crate) fn ending_of(fault: Fault<Refusal<'_>>) -> Status
    ensures { result ≡ ending_of fault.entry }
{
    match fault {
        Fault::Refused(refusal) => status_of(refusal.cause),
        Fault::Memory => Status::NoMemory,
    }
}

/// The numbers of a cause, of its reason and of the segment that the reason names, and the offset.
fn numbers_of(cause: Cause) -> (u32, u16, u16, usize)
    ensures { result ≡ numbers_of cause }
{
    match cause {
        Cause::Malformed(stop) => {
            let reason = reason_number(stop.reason);
            (1, reason, segment_of(stop.reason), stop.offset)
        }
        Cause::NoFile => (2, 0, 0, 0),
        Cause::ChainLength => (3, 0, 0, 0),
        Cause::OverBudget => (4, 0, 0, 0),
    }
}

/// The number of a reason in the header.
fn reason_number(reason: Reason) -> u16
    ensures { result ≡ reason_number reason }
{
    match reason {
        Reason::EndWithinSection => 2,
        Reason::CodeExpected => 3,
        Reason::CodeLength => 4,
        Reason::UnequalLengths => 5,
        Reason::CidExpected => 6,
        Reason::TextExpected => 7,
        Reason::BracketExpected => 8,
        Reason::UseWithoutName => 9,
        Reason::Header => 10,
        Reason::SegmentLength => 11,
        Reason::SegmentType => 12,
        Reason::Field(_) => 13,
        Reason::Entry(_) => 14,
        Reason::CodeTooLarge(_) => 15,
        Reason::CidTooLarge => 16,
        Reason::UnclosedString => 17,
        Reason::WrongDigit => 18,
        Reason::StrayDelimiter => 19,
    }
}

/// The number of the segment that a reason names, or 0.
fn segment_of(reason: Reason) -> u16
    ensures { result ≡ segment_of reason }
{
    match reason {
        Reason::Field(segment) | Reason::Entry(segment) | Reason::CodeTooLarge(segment) => {
            segment_number(segment)
        }
        _ => 0,
    }
}

/// The number of a segment in the header.
fn segment_number(segment: Segment) -> u16
    ensures { result ≡ segment_number segment }
{
    match segment {
        Segment::Cids => 1,
        Segment::Texts => 2,
        Segment::Notdefs => 3,
        Segment::WritingMode => 4,
        Segment::Codespaces => 5,
        Segment::Collection => 6,
    }
}

/// The one reason that may have these numbers: the number of a reason and the number of its
/// segment.
fn possible_reason(reason: u16, segment: u16) -> Option<Reason>
    ensures { result ≡ possible_reason reason segment }
{
    match (reason, segment_numbered(segment)) {
        (2, _) => Some(Reason::EndWithinSection),
        (3, _) => Some(Reason::CodeExpected),
        (4, _) => Some(Reason::CodeLength),
        (5, _) => Some(Reason::UnequalLengths),
        (6, _) => Some(Reason::CidExpected),
        (7, _) => Some(Reason::TextExpected),
        (8, _) => Some(Reason::BracketExpected),
        (9, _) => Some(Reason::UseWithoutName),
        (10, _) => Some(Reason::Header),
        (11, _) => Some(Reason::SegmentLength),
        (12, _) => Some(Reason::SegmentType),
        (13, Some(segment)) => Some(Reason::Field(segment)),
        (14, Some(segment)) => Some(Reason::Entry(segment)),
        (15, Some(segment)) => Some(Reason::CodeTooLarge(segment)),
        (16, _) => Some(Reason::CidTooLarge),
        (17, _) => Some(Reason::UnclosedString),
        (18, _) => Some(Reason::WrongDigit),
        (19, _) => Some(Reason::StrayDelimiter),
        _ => None,
    }
}

/// The segment of a number.
fn segment_numbered(number: u16) -> Option<Segment>
    ensures { result ≡ segment_numbered number }
{
    match number {
        1 => Some(Segment::Cids),
        2 => Some(Segment::Texts),
        3 => Some(Segment::Notdefs),
        4 => Some(Segment::WritingMode),
        5 => Some(Segment::Codespaces),
        6 => Some(Segment::Collection),
        _ => None,
    }
}
