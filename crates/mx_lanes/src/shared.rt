//! A value of which a copy costs no more than a count.

ghost use Rattle.std.specs.Prelude.{◌≡◌, IfOk, IfErr};

use mx_ids::{Copied, Memory};
use std::alloc::{AllocFailed, Global};
use std::marker::Model;
use std::sync::Arc;

/// A value that its copies share, in any threads. It can't be changed. Contracts see it as the value itself.
#[derive(Drop)]
pub struct Shared<T> {
    inner: Arc<T>,
}

impl<T> Model for Shared<T> {
    ghost use Rattle.std.specs.Arc.{arc_value};

    ghost Value = { T };

    ghost coded = { T.code };

    ghost view = { λ s. arc_value s.inner };
}

impl<T> Shared<T> {
    /// Takes a value in. Where the allocator refuses its place, the value comes back.
    pub fn new(alloc: Global, value: T) -> Result<Shared<T>, AllocFailed<T>>
        ensures made { IfOk result (λ s. s ≡ value) }
        ensures back { IfErr result (λ f. f.value ≡ value) }
    {
        match Arc::new(alloc, value) {
            Ok(inner) => Ok(Shared { inner }),
            Err(failed) => Err(failed),
        }
    }

    /// The value. Takes no memory.
    pub fn get(&self) -> &T
        ensures { result.now ≡ self.now }
    {
        &*self.inner
    }
}

impl<T: Drop> Copied for Shared<T> {
    /// Takes no allocation: one more owner of the same value.
    fn copy(&self, _alloc: Global) -> Result<Shared<T>, Memory> {
        Ok(Shared {
            inner: Arc::try_clone(&self.inner)?,
        })
    }
}
