use std::fs;
use std::fs::OpenFile;
use std::io::ErrorKind;
use std::rt::Files;

/// Syncs the folder in which a name stands, so that what the name was given lasts; whether no such sync
/// failed. A folder that can't be read, or whose file system knows no sync of folders, isn't synced.
pub fn sync_folder<R: Files>(rt: &R, name: &str) -> bool {
    let Ok(folder) = fs::open(rt, folder_of(name)) else {
        return true;
    };
    match folder.sync_all() {
        Ok(()) => true,
        Err(error) => matches!(
            error.kind(),
            ErrorKind::InvalidInput | ErrorKind::Unsupported
        ),
    }
}

fn folder_of(name: &str) -> &str {
    match name.rsplit_once('/') {
        Some(("", _)) => "/",
        Some((folder, _)) => folder,
        None => ".",
    }
}
