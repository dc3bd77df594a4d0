//! Rows of codes: the codes of a row differ in their last byte alone.

ghost use Rattle.std.specs.Prelude.{◌≡◌, ◌/◌, ◌≤◌};

/// The last code, at most `last`, in the row of `first`.
pub(crate) fn row_end(first: u32, last: u32) -> u32
    requires { first ≤ last }
    ensures within { (first ≤ result) × (result ≤ last) }
    ensures row { first / 256 ≡ result / 256 }
{
    (first + (255 - first % 256)).min(last)
}
