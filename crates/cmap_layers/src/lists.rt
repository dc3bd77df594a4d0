//! Items that are put into lists, if making them doesn't fail.

ghost use Rattle.std.specs.Prelude.{◌≡◌, ◌∷◌, ◌++◌, [], IfOk, Ok, OnErr, OnOk};

use std::alloc::AllocError;

/// Puts an item before the items of a list.
pub fn put_first<T: Drop>(
    item: Result<T, AllocError>,
    mut list: Vec<T>,
) -> Result<Vec<T>, AllocError>
    ensures { IfOk result
        (λ made. (first : T) × (item ≡ Ok first) × (made.items ≡ first ∷ list.items)) }
{
    list.insert(0, item?)?;
    Ok(list)
}

/// Adds an item after the items of a list.
pub fn put_last<T: Drop>(item: Result<T, AllocError>, list: &mut Vec<T>) -> Result<(), AllocError>
    ensures added { OnOk result
        ((last : T) × (item ≡ Ok last) × (list.new.items ≡ list.old.items ++ last ∷ [])) }
    ensures same { OnErr result (list.new.items ≡ list.old.items) }
{
    list.push(item?)?;
    Ok(())
}
