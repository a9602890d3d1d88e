//! Copies, each of which may find no memory. Wrong bodies: `must-fail-more/`.
ghost use Rattle.std.specs.Prelude.{◌≡◌, IfOk};

use crate::memory_fault::MemoryFault;
use std::alloc::Global;

/// A value that can be copied into new memory.
pub trait TryClone: Drop {
    /// Makes an equal value.
    fn try_clone(&self, alloc: Global) -> Result<Self, MemoryFault>
        ensures { IfOk result (λ value. value ≡ self.now) };
}

impl<T: TryClone> TryClone for Option<T> {
    fn try_clone(&self, alloc: Global) -> Result<Self, MemoryFault> {
        match self {
            Some(value) => Ok(Some(value.try_clone(alloc)?)),
            None => Ok(None),
        }
    }
}
