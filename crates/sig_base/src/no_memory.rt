use std::alloc::{AllocError, AllocFailed};

/// The answer of a call that can't have the memory that it wants. It is the one answer that comes
/// without a cause; such a call leaves what it was lent unchanged. (A memory shelf's `fetch` or
/// `put` that answers `ShelfFault::Memory` has used up its number.)
#[derive(Clone, Copy, Debug, PartialEq, Eq)]
pub struct NoMemory;

impl From<AllocError> for NoMemory {
    fn from(_error: AllocError) -> NoMemory {
        NoMemory
    }
}

impl<T: Drop> From<AllocFailed<T>> for NoMemory {
    fn from(_error: AllocFailed<T>) -> NoMemory {
        NoMemory
    }
}
