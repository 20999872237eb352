// The file that the opening of an image may make.
use std::fs::{remove_file, symlink_metadata};
use std::io::ErrorKind;
use std::rt::Files;

/// Whether nothing has this name, not even a link that leads nowhere.
pub fn is_missing<R: Files>(rt: &R, name: &str) -> bool {
    match symlink_metadata(rt, name) {
        Ok(_) => false,
        Err(e) => e.kind() == ErrorKind::NotFound,
    }
}

/// Removes the file of this name, if it is a regular one and empty. To be called for a name that was missing before the program
/// opened it, while its lock on the file holds: then what is removed is the file that this program made, into which nothing was
/// written.
pub fn remove_empty<R: Files>(rt: &R, name: &str) {
    if let Ok(found) = symlink_metadata(rt, name) {
        if found.is_file() && found.len() == 0 {
            let _ = remove_file(rt, name);
        }
    }
}
