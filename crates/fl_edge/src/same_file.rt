// Whether two names lead to one file.
use std::fs::metadata;
use std::os::unix::fs::MetadataExt;
use std::rt::Files;

/// Whether both names lead to one file, which may have several names, or links that lead to it. They don't where one of them leads
/// nowhere.
pub fn is_same_file<R: Files>(rt: &R, one: &str, other: &str) -> bool {
    match (metadata(rt, one), metadata(rt, other)) {
        (Ok(one), Ok(other)) => one.dev() == other.dev() && one.ino() == other.ino(),
        _ => false,
    }
}
