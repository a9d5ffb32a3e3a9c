//! What a shelf over files gives, makes and leaves alone.
use super::watched_files::{Disk, Refused, Stage, WatchedFiles};
use sig_base::{FileShelf, Shelf, ShelfFault};
use std::alloc::Global;
use std::fs::Permissions;
use std::os::unix::fs::{PermissionsExt, symlink};
use std::rt::Files;
use std::test::Fail;
use std::{fs, io};

/// A put by a shelf of its own.
fn put<R: Files>(files: &R, alloc: Global, name: &str, bytes: &[u8]) -> Result<(), ShelfFault> {
    FileShelf::new(files, alloc).put(name, bytes)
}

/// A fetch by a shelf of its own.
fn fetch<R: Files>(
    files: &R,
    alloc: Global,
    name: &str,
    limit: u32,
) -> Result<Vec<u8>, ShelfFault> {
    FileShelf::new(files, alloc).fetch(alloc, name, limit)
}

/// A limit, what is told of a file of four bytes, and how many of them are read.
const LIMITS: [(u32, Option<ShelfFault>, u64); 3] = [
    (4, None, 4),
    (3, Some(ShelfFault::TooLong), 4),
    (1, Some(ShelfFault::TooLong), 2),
];

/// No byte behind the one that shows that the file is too long is read.
#[test]
fn files_above_the_limit(rt: HostRuntime) -> Result<(), Fail> {
    let alloc = rt.alloc();
    fs::write(&rt, "fetched", b"four")?;
    for (limit, want, read) in LIMITS {
        let disk = Disk::new(Refused::Nothing);
        let files = WatchedFiles {
            files: &rt,
            disk: &disk,
        };
        match fetch(&files, alloc, "fetched", limit) {
            Ok(bytes) => assert_eq!(rt; (bytes.as_slice(), None), (b"four".as_slice(), want)),
            Err(fault) => assert_eq!(rt; Some(fault), want, "up to {limit}"),
        }
        assert_eq!(rt; disk.read(), read, "up to {limit}");
    }
    fs::remove_file(&rt, "fetched")?;
    let absent = fetch(&rt, alloc, "fetched", 4);
    assert_eq!(rt; absent.err(), Some(ShelfFault::Failed));
    Ok(())
}

/// What a disk refuses, and what a put of `new text` over `old` then answers and leaves.
const PUTS: [(Refused, Result<(), ShelfFault>, &[u8]); 7] = [
    (Refused::Nothing, Ok(()), b"new text"),
    (Refused::Opening, Err(ShelfFault::Failed), b"old"),
    (Refused::FourthByte, Err(ShelfFault::Failed), b"old"),
    (Refused::Flush, Err(ShelfFault::Failed), b"old"),
    (Refused::Sync, Err(ShelfFault::Failed), b"old"),
    (Refused::Rename, Err(ShelfFault::Failed), b"old"),
    (Refused::FolderSync, Err(ShelfFault::Failed), b"new text"),
];

/// No part of a new file is left, and a call that is interrupted is tried again.
#[test]
fn a_put_on_a_disk_that_refuses(rt: HostRuntime) -> Result<(), Fail> {
    let alloc = rt.alloc();
    for (refused, want, held) in PUTS {
        fs::write(&rt, "kept", b"old")?;
        let disk = Disk::new(refused);
        let files = WatchedFiles {
            files: &rt,
            disk: &disk,
        };
        let answer = put(&files, alloc, "kept", b"new text");
        assert_eq!(rt; answer, want, "{refused:?}");
        let found = fetch(&files, alloc, "kept", 8)?;
        assert_eq!(rt; found.as_slice(), held, "{refused:?}");
        assert!(rt; !fs::exists(&rt, "kept.part0")?, "{refused:?}");
    }
    fs::remove_file(&rt, "kept")?;
    Ok(())
}

/// A file that isn't there, under a name of 255 bytes, of which the byte 128 is half a letter: it
/// is written, flushed, synced and renamed, and its folder is synced, in this order.
#[test]
fn a_new_file_lasts(rt: HostRuntime) -> Result<(), Fail> {
    let alloc = rt.alloc();
    let name = format!(in alloc; "{:n>128}{:n>126}", "é", "")?;
    assert_eq!(rt; name.len(), 255);
    let disk = Disk::new(Refused::Nothing);
    let files = WatchedFiles {
        files: &rt,
        disk: &disk,
    };
    put(&files, alloc, &name, b"text")?;
    assert_eq!(rt; disk.stage(), Stage::Lasting);
    let found = fetch(&files, alloc, &name, 4)?;
    assert_eq!(rt; found.as_slice(), b"text".as_slice());
    fs::remove_file(&rt, &name)?;
    Ok(())
}

const LEFTOVERS: u32 = 20;

/// A file with permissions of its own, a link to it, and files of its siblings' names.
fn lay_out(rt: &(impl Files + AllocGlobal)) -> io::Result<()> {
    fs::write(rt, "replaced", b"")?;
    fs::set_permissions(rt, "replaced", Permissions::from_mode(0o600))?;
    for number in 0..LEFTOVERS {
        let name = format!(in rt.alloc(); "replaced.part{number}")?;
        fs::write(rt, &name, b"not ours")?;
    }
    symlink(rt, "replaced", "link")
}

/// Whether the file has its permissions, the link is one, and no further sibling is left.
fn is_as_laid_out(files: &impl Files) -> io::Result<bool> {
    let mode = fs::metadata(files, "replaced")?.permissions().mode();
    let is_link = fs::symlink_metadata(files, "link")?.is_symlink();
    Ok(mode % 0o1000 == 0o600 && is_link && !fs::exists(files, "replaced.part20")?)
}

/// Takes it away; whether the siblings had their bytes.
fn clear(rt: &(impl Files + AllocGlobal)) -> io::Result<bool> {
    fs::remove_file(rt, "link")?;
    fs::remove_file(rt, "replaced")?;
    let mut are_kept = true;
    for number in 0..LEFTOVERS {
        let name = format!(in rt.alloc(); "replaced.part{number}")?;
        are_kept = are_kept && fs::read(rt, &name)?.as_slice() == b"not ours".as_slice();
        fs::remove_file(rt, &name)?;
    }
    Ok(are_kept)
}

/// By its own name and by a link, with its permissions; files of its siblings' names are left alone.
#[test]
fn a_file_that_is_replaced(rt: HostRuntime) -> Result<(), Fail> {
    lay_out(&rt)?;
    let alloc = rt.alloc();
    for name in ["replaced", "link"] {
        put(&rt, alloc, name, name.as_bytes())?;
        let held = fetch(&rt, alloc, "replaced", 8)?;
        assert_eq!(rt; held.as_slice(), name.as_bytes());
    }
    assert!(rt; is_as_laid_out(&rt)?);
    assert!(rt; clear(&rt)?);
    Ok(())
}

/// Links and where they lead.
const LINKS: [(&str, &str); 3] = [
    ("to_a_device", "/dev/null"),
    ("to_a_full_device", "/dev/full"),
    ("to_nothing", "made"),
];

/// A name, what a put under it answers, and how far its bytes come.
const IN_PLACE: [(&str, Result<(), ShelfFault>, Stage); 5] = [
    ("/dev/null", Ok(()), Stage::Flushed),
    ("/dev/full", Err(ShelfFault::Failed), Stage::Written),
    ("to_a_device", Ok(()), Stage::Flushed),
    ("to_a_full_device", Err(ShelfFault::Failed), Stage::Written),
    ("to_nothing", Ok(()), Stage::Synced),
];

/// A device is written in place, and a missing file is made where the link leads.
#[test]
fn devices_and_what_is_missing(rt: HostRuntime) -> Result<(), Fail> {
    let alloc = rt.alloc();
    for (link, target) in LINKS {
        symlink(&rt, target, link)?;
    }
    for (name, want, stage) in IN_PLACE {
        let disk = Disk::new(Refused::Nothing);
        let files = WatchedFiles {
            files: &rt,
            disk: &disk,
        };
        assert_eq!(rt; put(&files, alloc, name, b"text"), want, "{name}");
        assert_eq!(rt; disk.stage(), stage, "{name}");
    }
    for (link, _) in LINKS {
        assert!(rt; fs::symlink_metadata(&rt, link)?.is_symlink(), "{link}");
        fs::remove_file(&rt, link)?;
    }
    assert_eq!(rt; fs::read(&rt, "made")?.as_slice(), b"text".as_slice());
    fs::remove_file(&rt, "made")?;
    Ok(())
}

/// Each name of a file that was fetched: a put under it fails, and the file keeps its bytes.
#[test]
fn a_fetched_file_is_spared(rt: HostRuntime) -> Result<(), Fail> {
    let alloc = rt.alloc();
    fs::write(&rt, "junction", b"ours")?;
    symlink(&rt, "junction", "symbolic")?;
    fs::hard_link(&rt, "junction", "hard")?;
    let mut shelf = FileShelf::new(&rt, alloc);
    shelf.fetch(alloc, "./junction", 4)?;
    for name in ["symbolic", "hard", "junction"] {
        assert_eq!(rt; shelf.put(name, b"text"), Err(ShelfFault::Failed), "{name}");
        assert_eq!(rt;
            fs::read(&rt, name)?.as_slice(),
            b"ours".as_slice(),
            "{name}"
        );
        fs::remove_file(&rt, name)?;
    }
    Ok(())
}
