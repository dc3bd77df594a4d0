//! Values of JSON. RFC 8259.

ghost use Rattle.std.specs.Prelude.{◌≡◌, IfOk, MatchOption, string_bytes};
ghost use Rattle.cmap_io.specs.Values.{view};
ghost use Rattle.serde_json.specs.Data.{boolean, null, number, string, unsigned};

use std::alloc::{AllocError, Global};
use std::collections::BTreeMap;

/// A value of JSON. Its numbers are integers from 0 on.
#[derive(Drop)]
pub enum Value {
    Null,
    Bool(bool),
    Number(u64),
    String(String),
    Array(Vec<Value>),
    /// The members, in the order of the bytes of their keys.
    Object(BTreeMap<String, Value>),
}

impl Value {
    /// The value of a text.
    pub fn try_from_str(alloc: Global, text: &str) -> Result<Value, AllocError>
        ensures { IfOk result (λ value. view value ≡ string text.now) }
    {
        Ok(Value::String(String::from_str(alloc, text)?))
    }
}

impl From<bool> for Value {
    ghost from_gives = { λ is_true value. view value ≡ boolean is_true };

    fn from(is_true: bool) -> Value {
        Value::Bool(is_true)
    }
}

impl From<u32> for Value {
    ghost from_gives = { λ count value. view value ≡ number (unsigned count) };

    fn from(count: u32) -> Value {
        Value::Number(u64::from(count))
    }
}

impl From<u64> for Value {
    ghost from_gives = { λ count value. view value ≡ number (unsigned count) };

    fn from(count: u64) -> Value {
        Value::Number(count)
    }
}

impl From<usize> for Value {
    ghost from_gives = { λ count value. view value ≡ number (unsigned count) };

    fn from(count: usize) -> Value {
        Value::Number(count as u64)
    }
}

impl From<String> for Value {
    ghost from_gives = { λ text value. view value ≡ string (string_bytes text) };

    fn from(text: String) -> Value {
        Value::String(text)
    }
}

impl<T: Into<Value>> From<Option<T>> for Value {
    ghost from_gives = { λ given value. MatchOption given (view value ≡ null)
        (λ inner. T.Into.converts inner value) };

    fn from(given: Option<T>) -> Value {
        match given {
            Some(inner) => inner.into(),
            None => Value::Null,
        }
    }
}
