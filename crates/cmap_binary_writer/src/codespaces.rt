//! Segments of codespace ranges.

ghost use Rattle.std.specs.Prelude.{◌≡◌, ◌<◌, ◌^◌, ◌++◌, All, flat_map, length, map};
ghost use Rattle.cmap_values.specs.DeclarationsSeen.{codespace_seen};
ghost use Rattle.cmap_values.specs.Outcomes.{Outcome};
ghost use Rattle.cmap_binary_writer.specs.Fields.{SpaceFits, space_bytes, spaces_bytes, spaces_payload};
ghost use Rattle.cmap_binary_writer.specs.Obstacles.{IsSpaceObstacle, IsSpacesObstacle};

use crate::notdefs::push_code;
use crate::obstacle::Obstacle;
use crate::pieces::push_segment;
use cmap_values::declarations::Codespace;
use cmap_values::fault::Fault;
use std::alloc::Global;

/// The type of a segment of codespace ranges.
const CODESPACES: u8 = 12;

/// The most ranges of a segment.
const MOST: usize = 255;

/// Writes segments for these codespace ranges, in order.
pub(crate) fn push_codespaces(
    alloc: Global,
    spaces: &[Codespace],
    out: &mut Vec<u8>,
) -> Result<(), Fault<Obstacle>>
    ensures { Outcome (λ _. All SpaceFits (map codespace_seen spaces.now)
        × (out.new.items ≡ out.old.items ++ spaces_bytes (map codespace_seen spaces.now)))
        (IsSpacesObstacle (map codespace_seen spaces.now)) result }
{
    let mut left = spaces;
    while !left.is_empty() {
        let (here, later) = left.split_at(left.len().min(MOST));
        let payload = codespace_payload(alloc, here)?;
        push_segment(out, CODESPACES, &payload)?;
        left = later;
    }
    Ok(())
}

/// The payload of a segment of these codespace ranges.
fn codespace_payload(alloc: Global, spaces: &[Codespace]) -> Result<Vec<u8>, Fault<Obstacle>>
    requires { length spaces.now < 2 ^ 8 }
    ensures { Outcome (λ payload. All SpaceFits (map codespace_seen spaces.now)
        × (payload.items ≡ spaces_payload (map codespace_seen spaces.now)))
        (IsSpacesObstacle (map codespace_seen spaces.now)) result }
{
    let mut payload = Vec::new(alloc);
    payload.push(spaces.len() as u8)?;
    push_spaces(&mut payload, spaces)?;
    Ok(payload)
}

/// Writes codespace ranges, one after another.
fn push_spaces(out: &mut Vec<u8>, spaces: &[Codespace]) -> Result<(), Fault<Obstacle>>
    ensures { Outcome (λ _. All SpaceFits (map codespace_seen spaces.now)
        × (out.new.items ≡ out.old.items ++ flat_map space_bytes (map codespace_seen spaces.now)))
        (IsSpacesObstacle (map codespace_seen spaces.now)) result }
{
    for space in spaces {
        push_space(out, *space)?;
    }
    Ok(())
}

/// Writes a codespace range: the length of its codes, the low code, the high code.
fn push_space(out: &mut Vec<u8>, space: Codespace) -> Result<(), Fault<Obstacle>>
    ensures { Outcome (λ _. SpaceFits (codespace_seen space) × (out.new.items ≡ out.old.items ++ space_bytes (codespace_seen space)))
        (IsSpaceObstacle (codespace_seen space)) result }
{
    out.push(space.len.count())?;
    push_code(out, space.len, space.low)?;
    push_code(out, space.len, space.high)
}
