ghost use Rattle.std.specs.Prelude.{ℕ, Option, ◌≡◌, ◌≤◌, length, IfOk, IfSome, OnOk, OnErr, Some};
ghost use Rattle.sig_base.specs.declared.shelf.ShelfFault.TheVariants.{Memory};

use crate::no_memory::NoMemory;
use std::alloc::{AllocError, Global};

/// Why a shelf gave or took no bytes.
#[derive(Clone, Copy, Debug, PartialEq, Eq)]
pub enum ShelfFault {
    /// The store failed, or doesn't have the name.
    Failed,
    /// The bytes of the name are more than the limit.
    TooLong,
    /// No memory could be had.
    Memory,
}

impl From<NoMemory> for ShelfFault {
    ghost from_gives = { λ _ fault. fault ≡ Memory };

    fn from(_no_memory: NoMemory) -> ShelfFault {
        ShelfFault::Memory
    }
}

impl From<AllocError> for ShelfFault {
    ghost from_gives = { λ _ fault. fault ≡ Memory };

    fn from(_error: AllocError) -> ShelfFault {
        ShelfFault::Memory
    }
}

/// A store of named bytes.
///
/// It has three meanings: what it holds, where it tells that; a count of its faults; and a count of
/// the fetches that it refused for length. Neither count ever falls, and each rises only in a call that
/// answers so.
pub trait Shelf {
    ghost use Rattle.sig_base.specs.Shelf.{Holdings, held, Puts, FetchCause, PutCause};

    ghost holds: { Self → Option Holdings };

    ghost faults: { Self → ℕ };

    ghost refusals: { Self → ℕ };

    /// The bytes of a name, which are at most `limit`.
    fn fetch(&mut self, alloc: Global, name: &str, limit: u32) -> Result<Vec<u8>, ShelfFault>
        ensures same { holds self.new ≡ holds self.old }
        ensures short { IfOk result (λ v. length v.items ≤ limit) }
        ensures bytes { IfOk result (λ v.
            IfSome (holds self.old) (λ m. held m name.now ≡ Some v.items)) }
        ensures cause { FetchCause (holds self.old) name.now limit
            (faults self.old) (faults self.new) (refusals self.old) (refusals self.new) result };

    /// Makes the name hold the bytes. After a fault the shelf holds what it held.
    fn put(&mut self, name: &str, bytes: &[u8]) -> Result<(), ShelfFault>
        ensures ok { OnOk result (Puts (holds self.old) (holds self.new) name.now bytes.now) }
        ensures err { OnErr result (holds self.new ≡ holds self.old) }
        ensures refusals { refusals self.new ≡ refusals self.old }
        ensures cause { PutCause (faults self.old) (faults self.new) result };
}
