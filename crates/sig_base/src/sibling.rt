ghost use Rattle.std.specs.Prelude.{IsErrOf};
ghost use Rattle.sig_base.specs.declared.shelf.ShelfFault.TheVariants.{TooLong};

use crate::shelf::ShelfFault;
use std::alloc::Global;
use std::fs::File;
use std::io::ErrorKind;
use std::rt::Files;

/// How many names are tried.
const TRIES: u32 = 1_000_000;

/// How many bytes of the last part of a long name are kept, so that with a number behind them it is a name for
/// each file system.
const LONGEST_STEM: usize = 128;

/// Makes a new file in the folder of `name`: the name with `.part0` behind it, or with the next free
/// number below 1000000. Of a long name the beginning is taken. What stands under such a name, as after a run
/// that was cut off, is left alone.
pub fn open_sibling<R: Files>(
    rt: &R,
    alloc: Global,
    name: &str,
) -> Result<(String, R::File), ShelfFault>
    ensures { ¬ IsErrOf result TooLong }
{
    let stem = stem_of(name);
    for number in 0..TRIES {
        let Ok(path) = format!(in alloc; "{stem}.part{number}") else {
            return Err(ShelfFault::Memory);
        };
        match File::create_new(rt, path.as_str()) {
            Ok(file) => return Ok((path, file)),
            Err(error) if error.kind() == ErrorKind::AlreadyExists => {}
            Err(_) => return Err(ShelfFault::Failed),
        }
    }
    Err(ShelfFault::Failed)
}

/// A name whose last part is cut where it is long.
fn stem_of(name: &str) -> &str {
    let folder = name.rfind('/').map_or(0, |slash| slash.saturating_add(1));
    let end = name.floor_char_boundary(folder.saturating_add(LONGEST_STEM));
    &name[..end]
}
