// Writing an answer.
ghost use Rattle.std.specs.Prelude.{IfSome, OnOk};
ghost use Rattle.std.specs.Io.KnownBytes.{Appends};

use answers::Status;
use clap::error::ErrorKind;
use reply::Failure;
use std::io::{BufWriter, Write};
use std::{fmt, io};

// Writes what is displayed, and sees it off.
pub fn write_whole<W: Write, D: fmt::Display + Drop>(writer: &mut W, text: D) -> io::Result<()>
    ensures { OnOk result (IfSome (D.output text) (Appends (W.contents writer.old) (W.contents writer.new))) }
{
    write!(writer, "{text}")?;
    writer.flush()
}

fn print_whole<R: Print + AllocGlobal, D: fmt::Display + Drop>(rt: &R, text: D) -> io::Result<()> {
    let mut output = BufWriter::new(rt.alloc(), io::writer(rt))?;
    write_whole(&mut output, text)
}

// Prints an answer on standard output.
pub fn print<R: Print + AllocGlobal, D: fmt::Display + Drop>(
    rt: &R,
    text: D,
) -> Result<(), Failure> {
    match print_whole(rt, text) {
        Ok(()) => Ok(()),
        Err(error) => Err(Failure::Output(error.kind())),
    }
}

// Tells what is wrong with a command line, or the help or the version that it asks for.
pub fn show_usage<R: Print + Eprint>(rt: &R, error: &clap::Error) -> Result<Status, Failure> {
    if error.kind() == ErrorKind::OutOfMemory {
        return Err(Failure::OutOfMemory);
    }
    if error.use_stderr() {
        // What standard error cannot say, the status does.
        let _ = error.print(rt);
        return Ok(Status::Usage);
    }
    match error.print(rt) {
        Ok(()) => Ok(Status::Yes),
        Err(error) => Err(Failure::Output(error.kind())),
    }
}
