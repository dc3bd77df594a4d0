//! Warnings about a file that has a map, for C.

ghost use Rattle.std.specs.Prelude.{◌≡◌, ◌≢◌, ◌⊎◌, ℕ, List, MatchOption};
ghost use Rattle.cmap_handles.specs.Rooms.{IsPut};
ghost use Rattle.cmap_handles.specs.Statuses.{number};
ghost use Rattle.cmap_handles.specs.declared.status.Status.TheVariants.{Absent, Done, NoMemory, NoRoom};
ghost use Rattle.cmap_lint.specs.Warnings as warnings;
ghost use Rattle.cmap_lint.specs.declared.warning.Warning.{Warning};
ghost use Rattle.cmap_c.specs.declared.lint.FindingNumbers.{FindingNumbers};

use cmap_handles::handle::MapHandle;
use cmap_handles::room::put;
use cmap_handles::status::Status;
use cmap_layers::layers::Layers;
use cmap_lint::finding::{Finding, Place};
use cmap_lint::lint::{Subject, findings_of};
use cmap_lint::warning::Warning;
use std::alloc::{AllocError, Global};

/// A warning with what it concerns, by the numbers of the header. All its bytes are in a field.
#[repr(C)]
#[derive(Clone, Copy)]
pub struct FindingNumbers {
    /// The number of codes, declarations, sections or strings that the warning concerns; 1 if the warning concerns the
    /// file.
    pub(crate) count: u64,
    /// The number of shown codes that the warning concerns.
    pub(crate) shown: usize,
    /// The offset of the first section or string, in bytes; else 0.
    pub(crate) offset: usize,
    /// The warning.
    pub(crate) warning: u32,
    /// The kind of the first place that the warning concerns, which determines the numbers that give the place.
    pub(crate) place: u32,
    /// The first code, or the first code of the first declaration; else 0.
    pub(crate) first: u32,
    /// The same code, or the last code of the first declaration; else 0.
    pub(crate) last: u32,
    /// The number of bytes of these codes, or 0.
    pub(crate) byte_len: u32,
    /// The lowest of the shown codes, or 0.
    pub(crate) first_shown: u32,
}

/// Writes the warnings about the file of a map: the warnings of `cmap check --lint`, except for the warning about the
/// name of the file. Without bytes there is no `text`, and no warning about how a text is written.
#[unsafe(no_mangle)]
pub extern "C" fn hayro_cmap_lint(
    map: &mut MapHandle,
    alloc: Global,
    text: &[u8],
    to_unicode: bool,
    shown: &[u32],
    findings: &mut [FindingNumbers],
    needed: &mut usize,
) -> u32
    ensures same { map.new.slot.map ≡ map.old.slot.map }
    ensures findings { (result ≡ number NoMemory → ⊥) → MatchOption map.old.slot.map
        ((result ≡ number Absent) × (findings.new ≡ findings.old) × (needed.new ≡ needed.old))
        (λ _. (found : List FindingNumbers)
        × IsPut found findings.old findings.new needed.new result) }
    ensures unwritten { result ≡ number NoMemory
        → (findings.new ≡ findings.old) × (needed.new ≡ needed.old) }
{
    let Some(layers) = map.layers() else {
        return Status::Absent.number();
    };
    match numbers_of_findings(alloc, layers, text, to_unicode, shown) {
        Ok(found) => put(&found, findings, needed),
        Err(_) => Status::NoMemory.number(),
    }
}

/// Writes the name of a warning, as `cmap check --lint` reports it.
#[unsafe(no_mangle)]
pub extern "C" fn hayro_cmap_warning_name(warning: u32, room: &mut [u8], needed: &mut usize) -> u32
    ensures name { ((result ≡ number Done) ⊎ (result ≡ number NoRoom))
        → (named : Warning) × (warnings.number named ≡ warning) × (name : List ℕ)
        × IsPut name room.old room.new needed.new result }
    ensures absent { result ≡ number Absent → (named : Warning) → warnings.number named ≢ warning }
    ensures unwritten { result ≡ number Absent → (room.new ≡ room.old) × (needed.new ≡ needed.old) }
    ensures ends { ((result ≡ number Done) ⊎ (result ≡ number NoRoom)) ⊎ (result ≡ number Absent) }
{
    match Warning::numbered(warning) {
        Some(warning) => put(warning.name().as_bytes(), room, needed),
        None => Status::Absent.number(),
    }
}

/// The warnings of a file with these layers, as C has them.
fn numbers_of_findings<'m>(
    alloc: Global,
    layers: &'m Layers,
    text: &'m [u8],
    to_unicode: bool,
    shown: &'m [u32],
) -> Result<Vec<FindingNumbers>, AllocError> {
    let subject = Subject {
        map: layers,
        text: (!text.is_empty()).then_some(text),
        file_name: None,
        to_unicode,
        shown,
    };
    let mut numbers = Vec::new(alloc);
    for finding in &findings_of(alloc, &subject)? {
        numbers.push(FindingNumbers::of(finding))?;
    }
    Ok(numbers)
}

impl FindingNumbers {
    /// The numbers of a finding.
    fn of(finding: &Finding<'_>) -> FindingNumbers {
        let (first, last, byte_len) = codes_at(finding.first);
        FindingNumbers {
            count: finding.count,
            shown: finding.shown,
            offset: offset_at(finding.first),
            warning: finding.warning.number(),
            place: number_of(finding.first),
            first,
            last,
            byte_len: u32::from(byte_len),
            first_shown: finding.first_shown.unwrap_or(0),
        }
    }
}

/// The number of a place in the header.
fn number_of(place: Place<'_>) -> u32 {
    match place {
        Place::File => 0,
        Place::Code { .. } => 1,
        Place::Range { .. } => 2,
        Place::Name(_) => 3,
        Place::Offset(_) => 4,
    }
}

/// The first and the last code of a place, and the number of their bytes; zeros if the place has no codes.
fn codes_at(place: Place<'_>) -> (u32, u32, u8) {
    match place {
        Place::Code { byte_len, code } => (code, code, byte_len),
        Place::Range { byte_len, range } => (range.start, range.end, byte_len),
        Place::File | Place::Name(_) | Place::Offset(_) => (0, 0, 0),
    }
}

/// The offset of a place, or 0.
fn offset_at(place: Place<'_>) -> usize {
    match place {
        Place::Offset(offset) => offset,
        Place::File | Place::Code { .. } | Place::Range { .. } | Place::Name(_) => 0,
    }
}
