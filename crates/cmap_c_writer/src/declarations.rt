//! All declarations for a file.

ghost use Rattle.std.specs.Prelude.{◌≡◌, Some, None, option_map};
ghost use Rattle.cmap_values.specs.DeclarationsSeen.{lists_seen};
ghost use Rattle.cmap_values.specs.Files.{lists_of};
ghost use Rattle.cmap_values.specs.Outcomes.{Outcome};
ghost use Rattle.cmap_c_writer.specs.Given.{all_declared};

use crate::declaration::Declaration;
use crate::written::NoText;
use cmap_values::declarations::Lists;
use cmap_values::fault::Fault;
use std::alloc::Global;

/// The lists of these declarations, in order; refused if a declaration declares nothing.
pub(crate) fn declared_lists(
    alloc: Global,
    declarations: &[Declaration<'_>],
) -> Result<Lists, Fault<NoText>>
    ensures { Outcome
        (λ lists. option_map lists_of (all_declared declarations.now) ≡ Some (lists_seen lists))
        (λ _. all_declared declarations.now ≡ None) result }
{
    let mut lists = Lists::new(alloc);
    for declaration in declarations {
        declaration.add_to(alloc, &mut lists)?;
    }
    Ok(lists)
}
