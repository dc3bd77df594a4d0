//! The arguments that ask for codes.

ghost use Rattle.std.specs.Prelude.{◌≡◌, ◌≢◌, ◌^◌, ◌<◌, [], ◌⊎◌, ◌↔◌, IsNone, IsTrue, IfSome, IfOk, IfErr, IsErrOf, All, Any, length, map, string_bytes};
ghost use Rattle.std.specs.Option.{SomeIff};
ghost use Rattle.std.specs.Str.Parse.{IsNumeral, digits_value};

use crate::failure::Failure;
use std::alloc::Global;

/// A character code, and the question about it.
#[derive(Clone, Copy)]
pub struct Query<'a> {
    /// The question: the CID or the text.
    pub asked: Asked,
    /// The bytes of the code as one number, big-endian.
    pub code: u32,
    /// The digits that spell the code.
    pub digits: &'a str,
}

impl<'a> Query<'a> {
    ghost use Rattle.cmap_queries.specs.CodeArguments.{SpellsNoQuery};
    ghost use Rattle.cmap_queries.specs.Queries.{argument_of, IsSpelled};

    /// The query that an argument spells; `None` if the argument spells no query. The argument `L:HEX` asks for the
    /// CID of a code of L bytes, 1 to 4, in 2L hexadecimal digits. The argument `bf:HEX` asks for the text of a code,
    /// in 1 to 8 hexadecimal digits. The digits are of either case.
    pub fn parse(argument: &'a str) -> Option<Query<'a>>
        ensures spelled { IfSome result IsSpelled }
        ensures argument { IfSome result (λ query. argument_of query ≡ argument.now) }
        ensures none { IsNone result → SpellsNoQuery argument.now }
    {
        let (name, digits) = argument.split_once(':')?;
        let asked = Asked::named(name)?;
        if !asked.has_digits(digits.len()) {
            return None;
        }
        let code = hexadecimal(digits)?;
        Some(Query {
            asked,
            code,
            digits,
        })
    }

    /// The queries that the arguments spell, one for each; `Failure::Usage` if an argument is wrong, or if there are
    /// no arguments.
    pub fn parse_all(alloc: Global, arguments: &'a [String]) -> Result<Vec<Query<'a>>, Failure>
        ensures arguments { IfOk result
            (λ queries. map argument_of queries.items ≡ map string_bytes arguments.now) }
        ensures spelled { IfOk result (λ queries. All IsSpelled queries.items) }
        ensures some { IfOk result (λ queries. 0 < length queries.items) }
        ensures usage { IsErrOf result Failure.Usage → (arguments.now ≡ [])
            ⊎ Any (λ argument. SpellsNoQuery (string_bytes argument)) arguments.now }
        ensures failures { IfErr result
            (λ failure. (failure ≡ Failure.Usage) ⊎ (failure ≡ Failure.NoMemory)) }
    {
        if arguments.is_empty() {
            return Err(Failure::Usage);
        }
        let mut queries = Vec::with_capacity(alloc, arguments.len())?;
        for argument in arguments {
            match Query::parse(argument.as_str()) {
                Some(query) => queries.push(query)?,
                None => return Err(Failure::Usage),
            }
        }
        Ok(queries)
    }
}

/// The question about a code.
#[derive(Clone, Copy)]
pub enum Asked {
    /// The CID of a code of this many bytes, 1 to 4.
    Cid { byte_len: u8 },
    /// The text of a code.
    Text,
}

impl Asked {
    ghost use Rattle.cmap_queries.specs.CodeArguments.{asked_name, HasDigitCount, IsAskable};

    /// The question that the part of an argument before its colon names.
    fn named(name: &str) -> Option<Asked>
        ensures known { IfSome result IsAskable }
        ensures name { IfSome result (λ asked. name.now ≡ asked_name asked) }
        ensures none { IsNone result → (asked : Asked) → IsAskable asked → name.now ≢ asked_name asked }
    {
        match name {
            "1" => Some(Asked::Cid { byte_len: 1 }),
            "2" => Some(Asked::Cid { byte_len: 2 }),
            "3" => Some(Asked::Cid { byte_len: 3 }),
            "4" => Some(Asked::Cid { byte_len: 4 }),
            "bf" => Some(Asked::Text),
            _ => None,
        }
    }

    /// Whether an argument with this question may have this many digits.
    fn has_digits(self, count: usize) -> bool
        ensures { IsTrue result ↔ HasDigitCount self count }
    {
        match self {
            Asked::Cid { byte_len } => count == 2 * usize::from(byte_len),
            Asked::Text => (1..=8).contains(&count),
        }
    }
}

/// The number that hexadecimal digits spell, if it fits into 32 bits.
fn hexadecimal(digits: &str) -> Option<u32>
    ensures { SomeIff result (IsNumeral 16 digits.now × (digits_value 16 digits.now < 2 ^ 32))
        (digits_value 16 digits.now) }
{
    if digits.starts_with('+') {
        return None;
    }
    u32::from_str_radix(digits, 16).ok()
}
