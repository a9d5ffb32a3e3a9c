ghost use Rattle.std.specs.Prelude.{◌≢◌, Err};
ghost use Rattle.sig_base.specs.declared.shelf.ShelfFault.TheVariants.{TooLong};

use crate::folder::sync_folder;
use crate::shelf::ShelfFault;
use crate::sibling::open_sibling;
use crate::write_whole::write_whole;
use std::alloc::Global;
use std::fs::{OpenFile, OpenOptions, Permissions};
use std::io::{ErrorKind, Write};
use std::rt::Files;
use std::{fs, io};

/// Writes the bytes to a file, by what stands at the name: nothing or a regular file, a link, or
/// another thing, which can't be replaced and is written in place.
pub fn put_file<R: Files>(rt: &R, alloc: Global, name: &str, bytes: &[u8]) -> Result<(), ShelfFault>
    ensures { result ≢ Err TooLong }
{
    match rt.symlink_metadata(name) {
        Ok(found) if found.is_file() => replace(rt, alloc, name, found.permissions(), bytes),
        Ok(found) if found.is_symlink() => put_through_link(rt, alloc, name, bytes),
        Ok(_) => write_in_place(OpenOptions::new().write(true).open(rt, name), bytes),
        Err(error) if error.kind() == ErrorKind::NotFound => place(rt, alloc, name, None, bytes),
        Err(_) => Err(ShelfFault::Failed),
    }
}

fn put_through_link<R: Files>(
    rt: &R,
    alloc: Global,
    name: &str,
    bytes: &[u8],
) -> Result<(), ShelfFault>
    ensures { result ≢ Err TooLong }
{
    let found = match rt.metadata(name) {
        Ok(found) => found,
        Err(error) if error.kind() == ErrorKind::NotFound => return make_target(rt, name, bytes),
        Err(_) => return Err(ShelfFault::Failed),
    };
    if !found.is_file() {
        return write_in_place(OpenOptions::new().write(true).open(rt, name), bytes);
    }
    match rt.canonicalize(alloc, name) {
        Ok(path) => replace(rt, alloc, path.as_str(), found.permissions(), bytes),
        Err(error) if error.kind() == ErrorKind::OutOfMemory => Err(ShelfFault::Memory),
        Err(_) => Err(ShelfFault::Failed),
    }
}

/// Makes the missing file that a link names.
fn make_target<R: Files>(rt: &R, name: &str, bytes: &[u8]) -> Result<(), ShelfFault>
    ensures { result ≢ Err TooLong }
{
    let Ok(mut file) = fs::create(rt, name) else {
        return Err(ShelfFault::Failed);
    };
    answer(fill(&mut file, None, bytes))
}

/// Replaces a regular file, where it can be opened for writing.
fn replace<R: Files>(
    rt: &R,
    alloc: Global,
    name: &str,
    permissions: Permissions,
    bytes: &[u8],
) -> Result<(), ShelfFault>
    ensures { result ≢ Err TooLong }
{
    match OpenOptions::new().write(true).open(rt, name) {
        Ok(_) => place(rt, alloc, name, Some(permissions), bytes),
        Err(_) => Err(ShelfFault::Failed),
    }
}

/// Writes a new file beside the name, renames it over the name and syncs the folder. After a fault before
/// that it is taken away.
fn place<R: Files>(
    rt: &R,
    alloc: Global,
    name: &str,
    permissions: Option<Permissions>,
    bytes: &[u8],
) -> Result<(), ShelfFault>
    ensures { result ≢ Err TooLong }
{
    let (sibling, mut file) = open_sibling(rt, alloc, name)?;
    let is_written = fill(&mut file, permissions, bytes);
    if !is_written || fs::rename(rt, sibling.as_str(), name).is_err() {
        // The fault is told all the same where the file can't be taken away.
        let _ = fs::remove_file(rt, sibling.as_str());
        return Err(ShelfFault::Failed);
    }
    answer(sync_folder(rt, name))
}

/// Writes and syncs a new file; whether it could.
fn fill<F: Write + OpenFile>(file: &mut F, permissions: Option<Permissions>, bytes: &[u8]) -> bool {
    if let Some(permissions) = permissions {
        if file.set_permissions(permissions).is_err() {
            return false;
        }
    }
    write_whole(file, bytes) && file.sync_all().is_ok()
}

/// Writes over what was opened, without cutting it first.
fn write_in_place<F: Write + Drop>(opened: io::Result<F>, bytes: &[u8]) -> Result<(), ShelfFault>
    ensures { result ≢ Err TooLong }
{
    let Ok(mut file) = opened else {
        return Err(ShelfFault::Failed);
    };
    answer(write_whole(&mut file, bytes))
}

fn answer(is_done: bool) -> Result<(), ShelfFault>
    ensures { result ≢ Err TooLong }
{
    if is_done {
        Ok(())
    } else {
        Err(ShelfFault::Failed)
    }
}
