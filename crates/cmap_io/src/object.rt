//! Objects of JSON, built member by member.

use crate::value::Value;
use std::alloc::{AllocError, Global};
use std::collections::BTreeMap;

/// An object under construction. If memory ran out for a member, `finish` fails.
#[derive(Drop)]
pub struct Object {
    alloc: Global,
    members: BTreeMap<String, Value>,
    is_whole: bool,
}

impl Object {
    /// An object without members.
    pub fn new(alloc: Global) -> Object {
        Object {
            alloc,
            members: BTreeMap::new(alloc),
            is_whole: true,
        }
    }

    /// Sets a member to a value.
    pub fn set(&mut self, key: &str, value: Value) {
        if self.put(key, value).is_err() {
            self.is_whole = false;
        }
    }

    /// Sets a member to a value, or records that memory ran out for it.
    pub fn set_made(&mut self, key: &str, value: Result<Value, AllocError>) {
        match value {
            Ok(value) => self.set(key, value),
            Err(AllocError) => self.is_whole = false,
        }
    }

    /// Sets a member to a text.
    pub fn set_text(&mut self, key: &str, text: &str) {
        self.set_made(key, Value::try_from_str(self.alloc, text));
    }

    /// Sets a member to a string, or records that memory ran out for it.
    pub fn set_string(&mut self, key: &str, text: Result<String, AllocError>) {
        match text {
            Ok(text) => self.set(key, Value::from(text)),
            Err(AllocError) => self.is_whole = false,
        }
    }

    /// Sets a member to a list, or records that memory ran out for it.
    pub fn set_list(&mut self, key: &str, list: Result<Vec<Value>, AllocError>) {
        match list {
            Ok(list) => self.set(key, Value::Array(list)),
            Err(AllocError) => self.is_whole = false,
        }
    }

    fn put(&mut self, key: &str, value: Value) -> Result<(), AllocError> {
        self.members
            .insert(String::from_str(self.alloc, key)?, value)?;
        Ok(())
    }

    /// The object. An error means that memory ran out for a member.
    pub fn finish(self) -> Result<Value, AllocError> {
        if self.is_whole {
            Ok(Value::Object(self.members))
        } else {
            Err(AllocError)
        }
    }
}
