//! Big-endian numbers, written one after another.

ghost use Rattle.std.specs.Prelude.{◌≡◌, ◌<◌, ◌≤◌, ◌^◌, ◌++◌, All, IfOk, flat_map};
ghost use Rattle.cmap_binary_writer.specs.Written.{bytes_of};

use std::alloc::AllocError;

/// Writes the last `width` bytes of a number, with the high byte first.
pub(crate) fn push_number(out: &mut Vec<u8>, number: u32, width: u8) -> Result<(), AllocError>
    requires { width ≤ 4 }
    ensures { IfOk result (λ _. out.new.items ≡ out.old.items ++ bytes_of width number) }
{
    let mut left = width;
    while left > 0 {
        left -= 1;
        out.push((number >> (8 * left) & 0xFF) as u8)?;
    }
    Ok(())
}

/// Writes numbers of two bytes each.
pub(crate) fn push_u16s(out: &mut Vec<u8>, numbers: &[u16]) -> Result<(), AllocError>
    ensures written { IfOk result (λ _. out.new.items ≡ out.old.items ++ flat_map (λ n. bytes_of 2 n) numbers.now) }
    ensures small { All (λ n. n < 2 ^ 16) numbers.now }
{
    for number in numbers {
        push_number(out, u32::from(*number), 2)?;
    }
    Ok(())
}
