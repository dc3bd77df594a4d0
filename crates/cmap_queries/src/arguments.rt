//! The arguments, and those that spell numbers.

ghost use Rattle.std.specs.Option.{SomeIff};
ghost use Rattle.std.specs.Str.Parse.{digits_value};
ghost use Rattle.cmap_queries.specs.Decimals.{SpellsNumber};

use crate::failure::Failure;
use std::env;

/// The arguments, without the program's name. Arguments that can't be gathered are
/// unreadable, whatever the cause.
pub fn arguments(rt: &HostRuntime) -> Result<Vec<String>, Failure> {
    gathered(rt).ok_or(Failure::Unreadable)
}

fn gathered(rt: &HostRuntime) -> Option<Vec<String>> {
    let mut arguments = env::args(rt).ok()?;
    let _program = arguments.next();
    arguments.collect(rt.alloc()).ok()
}

/// The number that decimal digits spell, if it fits into 64 bits.
pub fn decimal(digits: &str) -> Option<u64>
    ensures { SomeIff result (SpellsNumber digits.now) (digits_value 10 digits.now) }
{
    if digits.starts_with('+') {
        return None;
    }
    u64::from_str_radix(digits, 10).ok()
}
