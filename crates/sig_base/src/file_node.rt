use std::fs::Metadata;
use std::os::unix::fs::MetadataExt;

/// Which file this is, whatever names lead to it: its device, and its number there.
#[derive(Clone, Copy, PartialEq, Eq)]
pub struct FileNode {
    device: u64,
    number: u64,
}

impl FileNode {
    pub fn of(found: &Metadata) -> FileNode {
        FileNode {
            device: found.dev(),
            number: found.ino(),
        }
    }
}
