ghost use Rattle.std.specs.Prelude.{IsTrue};
ghost use Rattle.std.specs.Io.KnownBytes.{Appends};

use crate::retry::write_once;
use std::io::Write;

/// Writes all of the bytes; whether it could. A write that takes none of them is a fault.
pub fn write_whole<O: Write>(output: &mut O, bytes: &[u8]) -> bool
    ensures { IsTrue result → Appends (O.contents output.old) (O.contents output.new) bytes.now }
{
    let mut done = 0;
    while done < bytes.len() {
        match write_once(output, &bytes[done..]) {
            Ok(0) | Err(_) => return false,
            Ok(count) => done += count,
        }
    }
    output.flush().is_ok()
}
