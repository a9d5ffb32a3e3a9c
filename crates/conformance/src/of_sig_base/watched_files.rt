//! Files that watch what is done to them.
use std::alloc::Allocator;
use std::cell::Cell;
use std::fs::{Metadata, OpenFile, OpenOptions, Permissions};
use std::io;
use std::io::{Error, ErrorKind, Read, Seek, SeekFrom, Write};
use std::path::PathBuf;
use std::rt::Files;

/// How far the bytes of a new file have come.
#[derive(Clone, Copy, Debug, PartialEq, Eq)]
pub enum Stage {
    Opened,
    Written,
    Flushed,
    Synced,
    Renamed,
    /// The folder was synced after the rename.
    Lasting,
}

/// What a disk refuses.
#[derive(Clone, Copy, Debug, PartialEq, Eq)]
pub enum Refused {
    Nothing,
    /// To open a file that is there for writing.
    Opening,
    FourthByte,
    Flush,
    Sync,
    Rename,
    FolderSync,
}

/// Every second call of a read or a write is interrupted. A write takes a byte at a time. What is
/// refused of flushes and syncs is their answer alone: whoever doesn't heed it goes on as after one
/// that is done. Only a file that was written, flushed and synced, in this order, is renamed. Nothing
/// is made or replaced among the devices.
#[derive(Drop)]
pub struct Disk {
    refused: Refused,
    stage: Cell<Stage>,
    was_interrupted: Cell<bool>,
    written: Cell<u64>,
    read: Cell<u64>,
}

impl Disk {
    pub fn new(refused: Refused) -> Disk {
        Disk {
            refused,
            stage: Cell::new(Stage::Opened),
            was_interrupted: Cell::new(false),
            written: Cell::new(0),
            read: Cell::new(0),
        }
    }

    pub fn stage(&self) -> Stage {
        self.stage.get()
    }

    /// How many bytes were read.
    pub fn read(&self) -> u64 {
        self.read.get()
    }

    fn pass(&self, from: Stage, to: Stage) {
        if self.stage.get() == from {
            self.stage.set(to);
        }
    }

    fn refuses(&self, refused: Refused) -> io::Result<()> {
        if self.refused == refused {
            Err(Error::from(ErrorKind::Other))
        } else {
            Ok(())
        }
    }

    fn interrupts(&self) -> io::Result<()> {
        let interrupts = !self.was_interrupted.get();
        self.was_interrupted.set(interrupts);
        if interrupts {
            Err(Error::from(ErrorKind::Interrupted))
        } else {
            Ok(())
        }
    }

    fn takes_a_byte(&self) -> io::Result<()> {
        self.stage.set(Stage::Written);
        self.written.set(self.written.get().saturating_add(1));
        if self.written.get() == 4 {
            self.refuses(Refused::FourthByte)?;
        }
        Ok(())
    }
}

fn is_device(path: &str) -> bool {
    path.starts_with("/dev/")
}

#[derive(Drop)]
pub struct WatchedFiles<'r, R: Files> {
    pub files: &'r R,
    pub disk: &'r Disk,
}

#[derive(Drop)]
pub struct WatchedFile<'r, F: Drop> {
    file: F,
    disk: &'r Disk,
}

impl<'r, F: Write + Drop> Write for WatchedFile<'r, F> {
    fn write(&mut self, bytes: &[u8]) -> io::Result<usize> {
        self.disk.interrupts()?;
        self.disk.takes_a_byte()?;
        if bytes.is_empty() {
            return Ok(0);
        }
        self.file.write(&bytes[..1])
    }

    fn flush(&mut self) -> io::Result<()> {
        self.disk.pass(Stage::Written, Stage::Flushed);
        self.disk.refuses(Refused::Flush)?;
        self.file.flush()
    }
}

impl<'r, F: Read + Drop> Read for WatchedFile<'r, F> {
    fn read(&mut self, bytes: &mut [u8]) -> io::Result<usize> {
        self.disk.interrupts()?;
        let count = self.file.read(bytes)?;
        self.disk
            .read
            .set(self.disk.read.get().saturating_add(count as u64));
        Ok(count)
    }
}

impl<'r, F: Seek + Drop> Seek for WatchedFile<'r, F> {
    fn seek(&mut self, to: SeekFrom) -> io::Result<u64> {
        self.file.seek(to)
    }
}

impl<'r, F: OpenFile + Drop> OpenFile for WatchedFile<'r, F> {
    fn metadata(&self) -> io::Result<Metadata> {
        self.file.metadata()
    }

    fn set_len(&self, size: u64) -> io::Result<()> {
        self.file.set_len(size)
    }

    fn sync_all(&self) -> io::Result<()> {
        if self.file.metadata()?.is_dir() {
            self.disk.pass(Stage::Renamed, Stage::Lasting);
            self.disk.refuses(Refused::FolderSync)?;
        } else {
            self.disk.pass(Stage::Flushed, Stage::Synced);
            self.disk.refuses(Refused::Sync)?;
        }
        self.file.sync_all()
    }

    fn sync_data(&self) -> io::Result<()> {
        self.file.sync_data()
    }

    fn set_permissions(&self, permissions: Permissions) -> io::Result<()> {
        self.file.set_permissions(permissions)
    }
}

impl<'r, R: Files> Files for WatchedFiles<'r, R> {
    type File = WatchedFile<'r, R::File>;

    type Dir = R::Dir;

    fn open_file(&self, how: &OpenOptions, path: &str) -> io::Result<WatchedFile<'r, R::File>> {
        if how.asks_create_new() && is_device(path) {
            return Err(Error::from(ErrorKind::PermissionDenied));
        }
        if how.asks_write() && !how.asks_create_new() {
            self.disk.refuses(Refused::Opening)?;
        }
        Ok(WatchedFile {
            file: self.files.open_file(how, path)?,
            disk: self.disk,
        })
    }

    fn open_dir(&self, path: &str) -> io::Result<R::Dir> {
        self.files.open_dir(path)
    }

    fn metadata(&self, path: &str) -> io::Result<Metadata> {
        self.files.metadata(path)
    }

    fn symlink_metadata(&self, path: &str) -> io::Result<Metadata> {
        self.files.symlink_metadata(path)
    }

    fn copy(&self, from: &str, to: &str) -> io::Result<u64> {
        self.files.copy(from, to)
    }

    fn rename(&self, from: &str, to: &str) -> io::Result<()> {
        self.disk.refuses(Refused::Rename)?;
        if self.disk.stage() != Stage::Synced || is_device(to) {
            return Err(Error::from(ErrorKind::PermissionDenied));
        }
        self.disk.stage.set(Stage::Renamed);
        self.files.rename(from, to)
    }

    fn remove_file(&self, path: &str) -> io::Result<()> {
        self.files.remove_file(path)
    }

    fn create_dir(&self, path: &str) -> io::Result<()> {
        self.files.create_dir(path)
    }

    fn remove_dir(&self, path: &str) -> io::Result<()> {
        self.files.remove_dir(path)
    }

    fn remove_dir_all<B: Allocator>(&self, alloc: B, path: &str) -> io::Result<()> {
        self.files.remove_dir_all(alloc, path)
    }

    fn canonicalize<B: Allocator>(&self, alloc: B, path: &str) -> io::Result<PathBuf<B>> {
        self.files.canonicalize(alloc, path)
    }
}
