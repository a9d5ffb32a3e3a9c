ghost use Rattle.std.specs.Prelude.{◌≡◌, OnOk, OnErr};
ghost use Rattle.std.specs.Option.{option_map};
ghost use Rattle.sig_base.specs.Shelf.{held, with_held};
ghost use Rattle.sig_base.specs.WriteLog.{replayed};

use crate::no_memory::NoMemory;
use std::alloc::Global;
use std::collections::VecDeque;

/// Writes to named bytes, newest first: a name holds what it was last given.
pub type WriteLog = VecDeque<(String, Vec<u8>)>;

/// The bytes of a name.
pub fn find<'l>(log: &'l WriteLog, name: &str) -> Option<&'l Vec<u8>>
    ensures { option_map (λ bytes. bytes.now.items) result
        ≡ held (replayed log.now.items) name.now }
{
    for (held_name, bytes) in log {
        if name == held_name.as_str() {
            return Some(bytes);
        }
    }
    None
}

/// Makes the name hold the bytes.
pub fn write(alloc: Global, log: &mut WriteLog, name: &str, bytes: &[u8]) -> Result<(), NoMemory>
    ensures ok { OnOk result (replayed log.new.items
        ≡ with_held (replayed log.old.items) name.now bytes.now) }
    ensures err { OnErr result (log.new.items ≡ log.old.items) }
{
    let name = name.to_string(alloc)?;
    let bytes = bytes.to_vec(alloc)?;
    log.push_front((name, bytes))?;
    Ok(())
}
