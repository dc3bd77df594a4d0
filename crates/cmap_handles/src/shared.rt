//! A value that several handles share.

ghost use Rattle.std.specs.Prelude.{◌≡◌, IfOk};

use std::alloc::{AllocError, Global};
use std::marker::Model;
use std::sync::Arc;

/// A value that several handles share. A clause sees the value.
#[derive(Drop)]
pub struct Shared<T> {
    value: Arc<T>,
}

impl<T> Model for Shared<T> {
    ghost use Rattle.std.specs.Arc.{arc_value};

    ghost Value = { T };

    ghost view = { λ shared. arc_value shared.value };
}

impl<T: Drop> Shared<T> {
    /// A value of one handle. An error means that memory ran out.
    pub fn new(alloc: Global, value: T) -> Result<Box<Shared<T>>, AllocError>
        ensures { IfOk result (λ shared. shared.value ≡ value) }
    {
        let value = Arc::new(alloc, value)?;
        Ok(Box::new(alloc, Shared { value })?)
    }

    /// The value.
    pub fn value(&self) -> &T
        ensures { result.now ≡ self.now }
    {
        &self.value
    }

    /// A second reference to the value, for another handle. An error means that memory ran out.
    pub fn share(&self, alloc: Global) -> Result<Box<Shared<T>>, AllocError>
        ensures { IfOk result (λ shared. shared.value ≡ self.now) }
    {
        let value = Arc::try_clone(&self.value)?;
        Ok(Box::new(alloc, Shared { value })?)
    }
}
