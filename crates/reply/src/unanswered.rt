// Why a command has no reply.
ghost use Rattle.std.specs.Prelude.{◌≡◌};
ghost use Rattle.reply.specs.declared.unanswered.Unanswered.TheVariants.{OutOfMemory};

use answers::Status;
use names::NamesError;
use std::alloc::{AllocError, AllocFailed};
use std::fmt;
use words::Complaint;

#[derive(Clone, Copy)]
pub enum Unanswered {
    // A state has a mark for each of so many facts.
    Marks(u8),
    // What is wrong in a line of a text.
    Text(Complaint, u64),
    // The text has no plan.
    NoPlan,
    // A name is none, or is given twice.
    BadName,
    // The names are not as many as the facts and actions.
    OtherNames,
    OutOfMemory,
}

impl Unanswered {
    ghost use Rattle.reply.specs.Unanswered.{unanswered_status};

    pub fn status(self) -> Status
        ensures { result ≡ unanswered_status self }
    {
        match self {
            Unanswered::Marks(_) => Status::Usage,
            Unanswered::Text(_, _) | Unanswered::NoPlan => Status::Malformed,
            Unanswered::BadName | Unanswered::OtherNames => Status::Malformed,
            Unanswered::OutOfMemory => Status::Unwritten,
        }
    }
}

impl fmt::Display for Unanswered {
    ghost use Rattle.std.specs.Prelude.{Some};
    ghost use Rattle.reply.specs.Unanswered.{unanswered_words};

    ghost output = { λ u. Some (unanswered_words u) };

    fn fmt<W: fmt::Write>(&self, f: &mut fmt::Formatter<W>) -> fmt::Result {
        match *self {
            Unanswered::Marks(facts) => write!(
                f,
                "state: {facts} marks are wanted, a 0 or a 1 for each fact"
            ),
            Unanswered::Text(complaint, line) => write!(f, "text: line {line}: {complaint}"),
            Unanswered::NoPlan => f.write_str("text: it has no plan"),
            Unanswered::BadName => f.write_str(
                "names: a name is missing, is given twice, has more than 255 bytes, or is no name",
            ),
            Unanswered::OtherNames => f.write_str(
                "names: there are not as many as the problem has facts and actions",
            ),
            Unanswered::OutOfMemory => f.write_str("out of memory"),
        }
    }
}

impl<T: Drop> From<AllocFailed<T>> for Unanswered {
    ghost from_gives = { λ _ e. e ≡ OutOfMemory };

    fn from(_failed: AllocFailed<T>) -> Unanswered {
        Unanswered::OutOfMemory
    }
}

impl From<AllocError> for Unanswered {
    ghost from_gives = { λ _ e. e ≡ OutOfMemory };

    fn from(_error: AllocError) -> Unanswered {
        Unanswered::OutOfMemory
    }
}

impl From<NamesError> for Unanswered {
    ghost use Rattle.reply.specs.Unanswered.{unnamed};

    ghost from_gives = { λ n e. e ≡ unnamed n };

    fn from(error: NamesError) -> Unanswered {
        match error {
            NamesError::BadName => Unanswered::BadName,
            NamesError::OutOfMemory => Unanswered::OutOfMemory,
        }
    }
}
