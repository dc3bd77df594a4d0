//! The arguments.

ghost use Rattle.std.specs.Prelude.{◌≡◌, ◌≢◌, ℕ, MatchOption, map, string_bytes};
ghost use Rattle.cmap_query.specs.Rounds.{SpellsNoRequest, SpellsRequest, mode_argument};

use cmap_queries::arguments::decimal;

/// The work of each round.
#[derive(Clone, Copy)]
pub enum Mode {
    /// Read the file.
    Parse,
    /// Look up the CIDs of all codes of two bytes.
    Lookup,
    /// Look up the texts of the same codes.
    Bf,
    /// Cut a string of the same codes into codes, and look up the CID of each.
    Decode,
}

impl Mode {
    /// The mode that an argument names.
    fn parse(argument: &str) -> Option<Mode>
        ensures { MatchOption result ((mode : Mode) → argument.now ≢ mode_argument mode)
            (λ mode. argument.now ≡ mode_argument mode) }
    {
        match argument {
            "parse" => Some(Mode::Parse),
            "lookup" => Some(Mode::Lookup),
            "bf" => Some(Mode::Bf),
            "decode" => Some(Mode::Decode),
            _ => None,
        }
    }
}

/// The request that the arguments spell.
#[derive(Clone, Copy)]
pub struct Request<'a> {
    /// The work of each round.
    pub mode: Mode,
    /// The path of the file.
    pub path: &'a str,
    /// The number of rounds.
    pub rounds: u64,
}

impl<'a> Request<'a> {
    /// The request that the arguments spell: a mode, a file, and a number of rounds in decimal digits.
    pub fn parse(arguments: &'a [String]) -> Option<Request<'a>>
        ensures { MatchOption result (SpellsNoRequest (map string_bytes arguments.now))
            (λ request. SpellsRequest request.mode request.path.now request.rounds
            (map string_bytes arguments.now)) }
    {
        let [mode, path, rounds] = arguments else {
            return None;
        };
        Some(Request {
            mode: Mode::parse(mode.as_str())?,
            path: path.as_str(),
            rounds: decimal(rounds.as_str())?,
        })
    }
}
