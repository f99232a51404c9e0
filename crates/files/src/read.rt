// Reading a file whole, up to the room that there is for it.
ghost use Rattle.std.specs.Prelude.{◌≡◌, ◌≤◌, ◌<◌, length, take, IfOk, IfSome};
ghost use Rattle.std.specs.Io.KnownBytes.{Consumes, IsAtEnd};

use std::alloc::Global;
use std::fs::File;
use std::io;
use std::io::Read;
use std::rt::Files;

// Reads until the file ends or buf is full: how many bytes came, which begin buf.
pub fn read_file<R: Read>(file: &mut R, buf: &mut [u8]) -> io::Result<usize>
    ensures within { IfOk result (λ n. n ≤ length buf.new) }
    ensures bytes { IfOk result (λ n. Consumes (R.remaining file.old) (R.remaining file.new) (take n buf.new)) }
    ensures end { IfOk result (λ n. n < length buf.new → IsAtEnd (R.remaining file.new)) }
{
    let mut done: usize = 0;
    while done < buf.len() {
        let got = file.read(&mut buf[done..])?;
        if got == 0 {
            return Ok(done);
        }
        done = done + got;
    }
    Ok(done)
}

// The first bytes of what is read, so many at most: the room for them grows with what comes.
pub fn read_at_most<R: Read>(alloc: Global, file: &mut R, most: usize) -> io::Result<Vec<u8>>
    ensures { IfOk result (λ bytes. IfSome (R.remaining file.old) (λ there. bytes.items ≡ take most there)) }
{
    let mut bytes = Vec::new(alloc);
    file.take(most as u64).read_to_end(&mut bytes)?;
    Ok(bytes)
}

// Reads the file of this path into buf.
pub fn read_path<R: Files>(rt: &R, path: &str, buf: &mut [u8]) -> io::Result<usize>
    ensures { IfOk result (λ n. n ≤ length buf.new) }
{
    let mut file = File::open(rt, path)?;
    read_file(&mut file, buf)
}

// The first bytes of the file of this path.
pub fn first_bytes<R: Files + AllocGlobal>(rt: &R, path: &str, most: usize) -> io::Result<Vec<u8>> {
    let mut file = File::open(rt, path)?;
    read_at_most(rt.alloc(), &mut file, most)
}
