//! The file with the metadata and the declarations that C hands in.

ghost use Rattle.std.specs.Prelude.{◌≡◌, Some, None};
ghost use Rattle.cmap_values.specs.FilesSeen.{file_seen};
ghost use Rattle.cmap_values.specs.Outcomes.{Outcome};
ghost use Rattle.cmap_c_writer.specs.Given.{file_given};

use crate::declaration::Declaration;
use crate::declarations::declared_lists;
use crate::facts::Facts;
use crate::written::NoText;
use cmap_values::fault::Fault;
use cmap_values::file::File;
use std::alloc::Global;

/// The file with this metadata and these declarations; refused if a declaration declares nothing.
pub(crate) fn file_of<'d>(
    alloc: Global,
    facts: &Facts<'_>,
    declarations: &[Declaration<'_>],
) -> Result<File<'d>, Fault<NoText>>
    ensures { Outcome (λ file. file_given facts.now declarations.now ≡ Some (file_seen file))
        (λ _. file_given facts.now declarations.now ≡ None) result }
{
    let lists = declared_lists(alloc, declarations)?;
    let metadata = facts.metadata(alloc)?;
    Ok(File {
        metadata,
        lists,
        uses: Vec::new(alloc),
    })
}
