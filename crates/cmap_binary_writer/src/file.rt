//! A file in the binary form.

ghost use Rattle.std.specs.Prelude.{◌≡◌, IfOk};
ghost use Rattle.cmap_values.specs.FilesSeen.{file_seen};
ghost use Rattle.cmap_values.specs.Outcomes.{Outcome};
ghost use Rattle.cmap_binary_writer.specs.Encoded.{HaveOneWordEach, IsEncodedFor};
ghost use Rattle.cmap_binary_writer.specs.EncodersSeen.{encoders_seen};
ghost use Rattle.cmap_binary_writer.specs.Keeps.{IsWritten};
ghost use Rattle.cmap_binary_writer.specs.Obstacles.{IsWriteObstacle};
ghost use Rattle.cmap_binary_writer.specs.declared.obstacle.Obstacle.{Obstacle};
ghost use Rattle.cmap_binary_writer.specs.declared.obstacle.Obstacle.TheVariants.{TooLong};

use crate::columns::Encoders;
use crate::obstacle::Obstacle;
use crate::prepared::prepare;
use cmap_values::fault::Fault;
use cmap_values::file::File;
use std::alloc::Global;

/// A binary file with the content of a file: its metadata, its codespace ranges, the names of the files
/// that it uses, the CID of each code of each length, and the text of each code.
///
/// A file that has an obstacle, such as a CID of more than two bytes, is refused with the obstacle.
pub fn write_file(
    alloc: Global,
    tables: &Encoders,
    file: &File<'_>,
) -> Result<Vec<u8>, Fault<Obstacle>>
    ensures written { Outcome (λ bytes. IsEncodedFor (encoders_seen tables.now) (file_seen file.now) bytes.items
        × IsWritten (encoders_seen tables.now) (file_seen file.now) bytes.items)
        (IsWriteObstacle (encoders_seen tables.now) (file_seen file.now)) result }

    // A written file has no obstacle, except perhaps `TooLong` where a symbol has two code words, since
    // another spelling may be longer.
    ensures none { IfOk result (λ _. (obstacle : Obstacle) → IsWriteObstacle (encoders_seen tables.now) (file_seen file.now) obstacle
        → (obstacle ≡ TooLong) × (HaveOneWordEach (encoders_seen tables.now) → ⊥)) }
{
    let prepared = prepare(alloc, file)?;
    prepared.write(alloc, tables)
}
