// Whether two paths lead to one file.
use std::fs::Metadata;
use std::os::unix::fs::MetadataExt;
use std::path::Path;
use std::rt::Files;

// Both are there: a file is known by its device and its number on it, whatever the path. A device or a pipe is no file that could be lost.
fn is_one_file(one: &Metadata, other: &Metadata) -> bool {
    one.is_file() && one.dev() == other.dev() && one.ino() == other.ino()
}

// Whether a path is a link, here one that leads to nothing.
fn is_link<R: Files>(rt: &R, path: &str) -> bool {
    rt.symlink_metadata(path)
        .is_ok_and(|there| there.is_symlink())
}

// The folder of a path.
fn folder_of(path: Path) -> &str {
    match path.parent() {
        Some(folder) if !folder.as_os_str().is_empty() => folder.as_os_str(),
        _ => ".",
    }
}

// Neither is there: whether a file of the one path would be that of the other. A link that leads to nothing may lead to the other.
fn is_one_place<R: Files>(rt: &R, one: &str, other: &str) -> bool {
    if is_link(rt, one) || is_link(rt, other) {
        return true;
    }
    let (one, other) = (Path::new(one), Path::new(other));
    if one.file_name() != other.file_name() {
        return false;
    }
    match (rt.metadata(folder_of(one)), rt.metadata(folder_of(other))) {
        (Ok(one), Ok(other)) => one.dev() == other.dev() && one.ino() == other.ino(),
        _ => false,
    }
}

// Whether what is written to the one path is then read at the other.
pub fn lead_to_one_file<R: Files>(rt: &R, one: &str, other: &str) -> bool {
    match (rt.metadata(one), rt.metadata(other)) {
        (Ok(one), Ok(other)) => is_one_file(&one, &other),
        (Err(_), Err(_)) => is_one_place(rt, one, other),
        _ => false,
    }
}
