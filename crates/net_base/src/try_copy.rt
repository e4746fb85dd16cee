ghost use Rattle.std.specs.Prelude.{◌≡◌, IfOk};

use std::alloc::Global;

/// Memory ran out. It is the one answer that no clause ties to a cause.
pub type NoMemory = std::alloc::AllocError;

/// A value that can be copied as long as there is memory.
pub trait TryCopy {
    /// An equal value.
    fn copy(&self, alloc: Global) -> Result<Self, NoMemory>
        ensures { IfOk result (λ made. made ≡ self.now) };
}

impl TryCopy for u8 {
    fn copy(&self, _alloc: Global) -> Result<u8, NoMemory> {
        Ok(*self)
    }
}

impl TryCopy for u64 {
    fn copy(&self, _alloc: Global) -> Result<u64, NoMemory> {
        Ok(*self)
    }
}
