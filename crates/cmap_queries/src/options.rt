//! The options of the whole run, which come before the queries.

ghost use Rattle.std.specs.Prelude.{◌≡◌, MatchResult, map, string_bytes};
ghost use Rattle.cmap_queries.specs.OptionArguments.{SpellsNoNumber, SpellsNoOptions};
ghost use Rattle.cmap_queries.specs.OptionArguments.{SpellsOption, SpellsOptions};

use crate::arguments::decimal;
use crate::failure::Failure;

/// The options of the whole run.
#[derive(Clone, Copy)]
pub struct RunOptions {
    /// The length of the bundle that begins the input, in bytes.
    pub bundle: Option<u64>,
    /// The greatest number of bytes that the files that are opened may have together.
    pub budget: Option<u64>,
}

impl RunOptions {
    /// The options that the arguments begin with, and the arguments after them: `--bundle N`, then `--budget N`, where
    /// N has decimal digits. Each option may be absent.
    pub fn parse(arguments: &[String]) -> Result<(RunOptions, &[String]), Failure>
        ensures { MatchResult result
            (λ found. SpellsOptions (map string_bytes arguments.now) found.0.bundle found.0.budget
            (map string_bytes found.1.now))
            (λ failure. (failure ≡ Failure.Usage) × SpellsNoOptions (map string_bytes arguments.now)) }
    {
        let (bundle, rest) = parse_option("--bundle", arguments)?;
        let (budget, queries) = parse_option("--budget", rest)?;
        Ok((RunOptions { bundle, budget }, queries))
    }
}

/// The number of the option of this name, if the arguments begin with the option, and the arguments after the option.
fn parse_option<'w>(
    name: &str,
    arguments: &'w [String],
) -> Result<(Option<u64>, &'w [String]), Failure>
    ensures { MatchResult result
        (λ found. SpellsOption name.now (map string_bytes arguments.now) found.0
        (map string_bytes found.1.now))
        (λ failure. (failure ≡ Failure.Usage)
        × SpellsNoNumber name.now (map string_bytes arguments.now)) }
{
    let [first, digits, rest @ ..] = arguments else {
        return Ok((None, arguments));
    };
    if first.as_str() != name {
        return Ok((None, arguments));
    }
    match decimal(digits.as_str()) {
        Some(number) => Ok((Some(number), rest)),
        None => Err(Failure::Usage),
    }
}
