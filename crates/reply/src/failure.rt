// Why a command has no answer.
ghost use Rattle.std.specs.Prelude.{◌≡◌};
ghost use Rattle.reply.specs.declared.failure.Failure.TheVariants.{OutOfMemory, NoReply};

use crate::unanswered::Unanswered;
use answers::Status;
use files::{ErrorWords, Role};
use std::alloc::{AllocError, AllocFailed};
use std::fmt;
use std::io::ErrorKind;

#[derive(Clone, Copy)]
pub enum Failure {
    // A word of the command line is no text, and no path can be made of it.
    WordNoText,
    NoCommand,
    File(Role, ErrorKind),
    Output(ErrorKind),
    LongText(Role),
    // A file that is to be written is one that is read, or the other one.
    OneFile(Role, Role),
    NoReply(Unanswered),
    OutOfMemory,
}

impl Failure {
    ghost use Rattle.reply.specs.Failures.{failure_status};

    pub fn status(self) -> Status
        ensures { result ≡ failure_status self }
    {
        match self {
            Failure::WordNoText | Failure::NoCommand | Failure::OneFile(_, _) => Status::Usage,
            Failure::File(_, _) | Failure::Output(_) | Failure::OutOfMemory => Status::Unwritten,
            Failure::LongText(_) => Status::Malformed,
            Failure::NoReply(why) => why.status(),
        }
    }
}

impl fmt::Display for Failure {
    ghost use Rattle.reply.specs.Failures.{failure_words};

    ghost output = { failure_words };

    fn fmt<W: fmt::Write>(&self, f: &mut fmt::Formatter<W>) -> fmt::Result {
        match *self {
            Failure::WordNoText => f.write_str("a word of the command line is no UTF-8 text"),
            Failure::NoCommand => f.write_str("the command line has no whole command"),
            Failure::File(role, kind) => write!(f, "{}: {}", role.name(), ErrorWords(kind)),
            Failure::Output(kind) => write!(f, "standard output: {}", ErrorWords(kind)),
            Failure::LongText(role) => write!(
                f,
                "{}: it is longer than such a text may be",
                role.name()
            ),
            Failure::OneFile(written, other) => write!(
                f,
                "{}: it would be written over the {}",
                written.name(),
                other.name()
            ),
            Failure::NoReply(why) => write!(f, "{why}"),
            Failure::OutOfMemory => f.write_str("out of memory"),
        }
    }
}

impl<T: Drop> From<AllocFailed<T>> for Failure {
    ghost from_gives = { λ _ e. e ≡ OutOfMemory };

    fn from(_failed: AllocFailed<T>) -> Failure {
        Failure::OutOfMemory
    }
}

impl From<AllocError> for Failure {
    ghost from_gives = { λ _ e. e ≡ OutOfMemory };

    fn from(_error: AllocError) -> Failure {
        Failure::OutOfMemory
    }
}

impl From<Unanswered> for Failure {
    ghost from_gives = { λ why e. e ≡ NoReply why };

    fn from(why: Unanswered) -> Failure {
        Failure::NoReply(why)
    }
}
