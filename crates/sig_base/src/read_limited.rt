ghost use Rattle.std.specs.Prelude.{◌≡◌, ◌+◌, ◌≤◌, ◌<◌, List, ℕ, length, IfOk, IfSome, IsErrOf};
ghost use Rattle.std.specs.Io.KnownBytes.{Consumes};
ghost use Rattle.sig_base.specs.declared.shelf.ShelfFault.TheVariants.{TooLong};

use crate::retry::read_once;
use crate::shelf::ShelfFault;
use std::alloc::Global;
use std::io::Read;

/// The bytes of an input up to its end, which is where a read gives none. No more than `limit + 1`
/// bytes are read: where there are so many, the input is too long.
pub fn read_limited<I: Read>(
    input: &mut I,
    alloc: Global,
    limit: u32,
) -> Result<Vec<u8>, ShelfFault>
    ensures short { IfOk result (λ v. length v.items ≤ limit) }
    ensures whole { IfOk result (λ v.
        IfSome (I.remaining input.old) (λ bytes. v.items ≡ bytes)) }
    ensures too_long { IsErrOf result TooLong →
        IfSome (I.remaining input.old) (λ bytes. limit < length bytes) }
    ensures most { (taken : List ℕ) × Consumes (I.remaining input.old) (I.remaining input.new) taken
        × (length taken ≤ limit + 1) }
{
    let mut bytes = Vec::new(alloc);
    let mut buffer = [0u8; 4096];
    let most = limit as usize + 1;
    'turns: for _turn in 0..most {
        let room = (most - bytes.len()).min(buffer.len());
        let Ok(count) = read_once(input, &mut buffer[..room]) else {
            return Err(ShelfFault::Failed);
        };
        if count == 0 {
            return Ok(bytes);
        }
        if bytes.len() + count == most {
            return Err(ShelfFault::TooLong);
        }
        if bytes.extend_from_slice(&buffer[..count]).is_err() {
            return Err(ShelfFault::Memory);
        }
    }
    unreachable!()
}
