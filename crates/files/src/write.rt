// Writing a file whole, or leaving what stands in its place as it is.
ghost use Rattle.std.specs.Prelude.{OnOk};
ghost use Rattle.std.specs.Io.KnownBytes.{Appends};

use std::fs::{File, Metadata, OpenFile, OpenOptions};
use std::io;
use std::io::{ErrorKind, Write};
use std::path::Path;
use std::rt::Files;

// How many files of the names for new ones may be left over by others.
const TRIES: u8 = 100;

// Writes all the bytes, and sees them off.
pub fn write_bytes<W: Write>(writer: &mut W, bytes: &[u8]) -> io::Result<()>
    ensures { OnOk result (Appends (W.contents writer.old) (W.contents writer.new) bytes.now) }
{
    writer.write_all(bytes)?;
    writer.flush()
}

// A device, a pipe, or one of the standard streams by its name: what was written there cannot be taken back, and it is not replaced.
fn is_stream(path: &str, there: &Metadata) -> bool {
    let by_name = path.starts_with("/dev/") || path.starts_with("/proc/");
    if there.is_symlink() {
        by_name
    } else {
        !there.is_file()
    }
}

// Writes to what is there, at its end.
fn write_straight<R: Files>(rt: &R, path: &str, bytes: &[u8]) -> io::Result<()> {
    let mut how = OpenOptions::new();
    how.append(true);
    let mut file = how.open(rt, path)?;
    write_bytes(&mut file, bytes)
}

// Writes a new file whole, with the permissions of the one that it is to replace.
fn fill<F: Write + OpenFile>(
    file: &mut F,
    replaced: Option<&Metadata>,
    bytes: &[u8],
) -> io::Result<()> {
    if let Some(there) = replaced {
        file.set_permissions(there.permissions())?;
    }
    write_bytes(file, bytes)?;
    file.sync_all()
}

// Writes a new file of this name, and moves it to its place. Where that fails, the new file goes.
fn write_then_move<R: Files>(
    rt: &R,
    mut file: R::File,
    name: &str,
    path: &str,
    replaced: Option<&Metadata>,
    bytes: &[u8],
) -> io::Result<()> {
    let moved = fill(&mut file, replaced, bytes).and_then(|_| rt.rename(name, path));
    if moved.is_err() {
        let _ = rt.remove_file(name);
    }
    moved
}

// Puts a file with these bytes in the place of what is there.
fn replace<R: Files + AllocGlobal>(
    rt: &R,
    path: &str,
    replaced: Option<&Metadata>,
    bytes: &[u8],
) -> io::Result<()> {
    for number in 0..TRIES {
        let name = format!(in rt.alloc(); "{path}.new{number}")?;
        match File::create_new(rt, name.as_str()) {
            Ok(file) => return write_then_move(rt, file, name.as_str(), path, replaced, bytes),
            Err(error) if error.kind() == ErrorKind::AlreadyExists => {}
            Err(error) => return Err(error),
        }
    }
    Err(io::Error::from(ErrorKind::AlreadyExists))
}

// Writes the file of this path: whole, or what stands in its place is left as it was. What is no file, as a device, is written straight.
pub fn save<R: Files + AllocGlobal>(rt: &R, path: &str, bytes: &[u8]) -> io::Result<()> {
    let there = match rt.symlink_metadata(path) {
        Ok(there) => there,
        Err(error) if error.kind() == ErrorKind::NotFound => return replace(rt, path, None, bytes),
        Err(error) => return Err(error),
    };
    if is_stream(path, &there) {
        return write_straight(rt, path, bytes);
    }
    let place = rt.canonicalize(rt.alloc(), path)?;
    let there = rt.metadata(place.as_str())?;
    if is_stream(place.as_str(), &there) {
        return write_straight(rt, path, bytes);
    }
    if there.permissions().readonly() {
        return Err(io::Error::from(ErrorKind::PermissionDenied));
    }
    replace(rt, place.as_str(), Some(&there), bytes)
}
