ghost use Rattle.std.specs.Prelude.{◌≡◌, ◌≤◌, length, None, IfOk};
ghost use Rattle.sig_base.specs.Answers.{faults_after, refusals_after};
ghost use Rattle.sig_base.specs.Shelf.{FetchCause, PutCause};

use crate::file_node::FileNode;
use crate::put_file::put_file;
use crate::read_limited::read_limited;
use crate::shelf::{Shelf, ShelfFault};
use std::alloc::Global;
use std::fs;
use std::fs::OpenFile;
use std::marker::Model;
use std::rt::Files;

/// A shelf over files: a name is a path. It doesn't tell what it holds.
///
/// A `fetch` reads at most `limit + 1` bytes. A `put` never loses the old file. The bytes go to a new
/// file in the same folder, whose name is the old one with `.part0` behind it, or with the next number
/// up to 999999 where that stands already; of a long name the first 128 bytes are taken. It gets the old
/// file's permissions but not its owner, is synced and renamed over the name, or taken away after a
/// fault. Of a link to a regular file that file is replaced, and the link stays. A file that can't be
/// opened for writing isn't replaced. Further names of the same file keep the old bytes. After the
/// rename the folder is synced, where it can be read and its file system knows that. Where this sync
/// fails, the put is a fault though the name holds the new bytes.
///
/// A regular file that this shelf has fetched is never replaced by it, whatever the name: such a put is a
/// fault, and the file keeps its bytes.
///
/// A device, a pipe or the missing file that a link names is opened and written in place, the last one
/// with a sync behind it.
#[derive(Drop)]
pub struct FileShelf<'r, R: Files> {
    rt: &'r R,
    alloc: Global,
    fetched: Vec<FileNode>,
    faults: u64,
    refusals: u64,
}

impl<'r, R: Files> Model for FileShelf<'r, R> {
    ghost use Rattle.sig_base.specs.FileShelf.{FileShelfState};

    ghost Value = { FileShelfState };

    ghost view = { λ s. record { faults = s.faults; refusals = s.refusals } };
}

impl<'r, R: Files> FileShelf<'r, R> {
    /// A shelf over the files of `rt`, with no fault yet. What it keeps is allocated by `alloc`.
    pub fn new(rt: &'r R, alloc: Global) -> FileShelf<'r, R>
        ensures { result ≡ record { faults = 0; refusals = 0 } }
    {
        FileShelf {
            rt,
            alloc,
            fetched: Vec::new(alloc),
            faults: 0,
            refusals: 0,
        }
    }
}

impl<'r, R: Files> Shelf for FileShelf<'r, R> {
    ghost holds = { λ _. None };

    ghost faults = { λ s. s.faults };

    ghost refusals = { λ s. s.refusals };

    fn fetch(&mut self, alloc: Global, name: &str, limit: u32) -> Result<Vec<u8>, ShelfFault>
        ensures short { IfOk result (λ v. length v.items ≤ limit) }
        ensures cause { FetchCause None name.now limit
            self.old.faults self.new.faults self.old.refusals self.new.refusals result }
        ensures faults { self.new.faults ≡ faults_after result self.old.faults }
        ensures refusals { self.new.refusals ≡ refusals_after result self.old.refusals }
    {
        let answer = fetch_file(self.rt, alloc, name, limit, &mut self.fetched);
        match answer {
            Err(ShelfFault::Failed) => self.faults = self.faults.saturating_add(1),
            Err(ShelfFault::TooLong) => self.refusals = self.refusals.saturating_add(1),
            Err(ShelfFault::Memory) | Ok(_) => {}
        }
        answer
    }

    fn put(&mut self, name: &str, bytes: &[u8]) -> Result<(), ShelfFault>
        ensures cause { PutCause self.old.faults self.new.faults result }
        ensures faults { self.new.faults ≡ faults_after result self.old.faults }
        ensures refusals { self.new.refusals ≡ self.old.refusals }
    {
        let done = if is_one_of(self.rt, name, &self.fetched) {
            Err(ShelfFault::Failed)
        } else {
            put_file(self.rt, self.alloc, name, bytes)
        };
        if done == Err(ShelfFault::Failed) {
            self.faults = self.faults.saturating_add(1);
        }
        done
    }
}

/// The bytes of a file, which is noted before it is read.
fn fetch_file<R: Files>(
    rt: &R,
    alloc: Global,
    name: &str,
    limit: u32,
    fetched: &mut Vec<FileNode>,
) -> Result<Vec<u8>, ShelfFault>
    ensures { IfOk result (λ v. length v.items ≤ limit) }
{
    let Ok(mut file) = fs::open(rt, name) else {
        return Err(ShelfFault::Failed);
    };
    let Ok(found) = file.metadata() else {
        return Err(ShelfFault::Failed);
    };
    if fetched.push(FileNode::of(&found)).is_err() {
        return Err(ShelfFault::Memory);
    }
    read_limited(&mut file, alloc, limit)
}

/// Whether a name leads to a regular file of the list.
fn is_one_of<R: Files>(rt: &R, name: &str, files: &[FileNode]) -> bool {
    match rt.metadata(name) {
        Ok(found) => found.is_file() && files.contains(&FileNode::of(&found)),
        Err(_) => false,
    }
}
