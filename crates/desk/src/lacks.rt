// What a command line lacks of the two files that it is to name.
ghost use Rattle.std.specs.Prelude.{◌≡◌};
ghost use Rattle.desk.specs.Unread.{is_unread};

use answers::Status;
use files::ErrorWords;
use std::fmt;
use std::io::ErrorKind;

// Why a file was not read.
#[derive(Clone, Copy)]
pub enum Lack {
    NoName,
    // A path is text.
    NoText,
    Unread(ErrorKind),
}

// Whether there is a file that could not be read.
fn is_unread(lack: Option<Lack>) -> bool
    ensures { result ≡ is_unread lack }
{
    match lack {
        None | Some(Lack::NoName) | Some(Lack::NoText) => false,
        Some(Lack::Unread(_)) => true,
    }
}

impl fmt::Display for Lack {
    fn fmt<W: fmt::Write>(&self, f: &mut fmt::Formatter<W>) -> fmt::Result {
        match *self {
            Lack::NoName => f.write_str("the command line names no such file"),
            Lack::NoText => f.write_str("its name is no UTF-8 text"),
            Lack::Unread(kind) => write!(f, "{}", ErrorWords(kind)),
        }
    }
}

// What is wrong with the command line and the files that it names.
#[derive(Clone, Copy)]
pub struct Lacks {
    pub problem: Option<Lack>,
    pub plan: Option<Lack>,
    // There are more words.
    pub more: bool,
}

impl Lacks {
    ghost use Rattle.desk.specs.Status.{has_files, status_with};

    // Whether both files were read.
    pub fn has_files(self) -> bool
        ensures { result ≡ has_files self }
    {
        self.problem.is_none() && self.plan.is_none()
    }

    // The status where the answer's is `answer`: a file that cannot be read goes before a command line that is wrong, and both before it.
    pub fn status(self, answer: Status) -> Status
        ensures { result ≡ status_with self answer }
    {
        if is_unread(self.problem) || is_unread(self.plan) {
            return Status::Unwritten;
        }
        if self.more || !self.has_files() {
            return Status::Usage;
        }
        answer
    }
}
