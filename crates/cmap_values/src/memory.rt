//! Steps that fail only if memory runs out.

ghost use Rattle.std.specs.Prelude.{◌⊎◌, ◌≡◌, IsErr, IsOk, MatchResult, Ok};

use std::alloc::AllocError;

/// The results of two steps, if neither step fails.
pub fn both<T: Drop, U: Drop>(
    one: Result<T, AllocError>,
    other: Result<U, AllocError>,
) -> Result<(T, U), AllocError>
    ensures { MatchResult result (λ made. (one ≡ Ok made.0) × (other ≡ Ok made.1))
        (λ _. IsErr one ⊎ IsErr other) }
{
    match (one, other) {
        (Ok(one), Ok(other)) => Ok((one, other)),
        _ => Err(AllocError),
    }
}

/// A value after a step, if the step doesn't fail.
pub fn after<T: Drop>(value: T, step: Result<(), AllocError>) -> Result<T, AllocError>
    ensures { MatchResult result (λ kept. (kept ≡ value) × IsOk step) (λ _. IsErr step) }
{
    step?;
    Ok(value)
}
