// What is wrong with a text.
ghost use Rattle.words.specs.declared.complaint.MakeError.TheVariants.{Text, OutOfMemory};

use std::alloc::{AllocError, AllocFailed};
use std::error::Error;
use std::fmt;

#[derive(Clone, Copy, PartialEq, Eq, Debug)]
pub enum Complaint {
    NoVersion,
    NoFact,
    TooManyFacts,
    NoName,
    NameTaken,
    NoStart,
    NoGoal,
    UnknownFact,
    // A group in a group of its own kind.
    SameKind,
    NoBracket,
    TooDeep,
    TooManyMembers,
    FormulaTooLong,
    // An effect's literal does not come after the one before.
    EffectOrder,
    TooManyEffects,
    TooManyActions,
    UnknownAction,
    TooManySteps,
    // A word where the text has to end.
    WordLeft,
    // The problem's block is longer than one may be.
    TooLong,
}

impl Complaint {
    ghost use Rattle.std.specs.Prelude.{◌≡◌};
    ghost use Rattle.words.specs.Complaints.{complaint_words};

    // What is said of it.
    pub fn words(self) -> &'static str
        ensures { result.now ≡ complaint_words self }
    {
        match self {
            Complaint::NoVersion => "a problem begins with version 1 or version 2",
            Complaint::NoFact => "no fact is declared",
            Complaint::TooManyFacts => "there are more facts than a problem of this version has",
            Complaint::NoName => "this is no name, or one of more than 255 bytes",
            Complaint::NameTaken => "this name is taken",
            Complaint::NoStart => "the start is not here",
            Complaint::NoGoal => "the goal is not here",
            Complaint::UnknownFact => "a fact of this name is not declared",
            Complaint::SameKind => "this group stands in a group of its own kind",
            Complaint::NoBracket => "a group's members stand in brackets",
            Complaint::TooDeep => "more than 8 groups stand in one another",
            Complaint::TooManyMembers => "a group has more than 255 members",
            Complaint::FormulaTooLong => "a formula takes more than 1024 bytes",
            Complaint::EffectOrder => {
                "effects stand in the order of their facts, those that set before those that clear"
            }
            Complaint::TooManyEffects => {
                "there are more effects than an action of this version has"
            }
            Complaint::TooManyActions => "there are more than 64 actions",
            Complaint::UnknownAction => "an action of this name is not declared",
            Complaint::TooManySteps => "a plan has more than 256 steps",
            Complaint::WordLeft => "the text has to end here",
            Complaint::TooLong => "the problem takes more than 32768 bytes",
        }
    }

    // It as the error, at a word where so many bytes of the text are left.
    pub fn at(self, left: usize) -> MakeError
        ensures { result ≡ Text self left }
    {
        MakeError::Text(self, left)
    }
}

impl fmt::Display for Complaint {
    ghost use Rattle.std.specs.Prelude.{Some};
    ghost use Rattle.words.specs.Complaints.{complaint_words};

    ghost output = { λ c. Some (complaint_words c) };

    fn fmt<W: fmt::Write>(&self, f: &mut fmt::Formatter<W>) -> fmt::Result {
        f.write_str(self.words())
    }
}

// Why no block was made: what is wrong with the text, where so many of its bytes are left.
#[derive(Clone, Copy, PartialEq, Eq, Debug)]
pub enum MakeError {
    Text(Complaint, usize),
    OutOfMemory,
}

impl fmt::Display for MakeError {
    ghost use Rattle.std.specs.Prelude.{Some};
    ghost use Rattle.words.specs.Complaints.{error_words};

    ghost output = { λ e. Some (error_words e) };

    fn fmt<W: fmt::Write>(&self, f: &mut fmt::Formatter<W>) -> fmt::Result {
        match self {
            MakeError::Text(complaint, _) => write!(f, "{complaint}"),
            MakeError::OutOfMemory => write!(f, "out of memory"),
        }
    }
}

impl Error for MakeError {}

impl<T: Drop> From<AllocFailed<T>> for MakeError {
    ghost use Rattle.std.specs.Prelude.{◌≡◌};

    ghost from_gives = { λ _ e. e ≡ OutOfMemory };

    fn from(_failed: AllocFailed<T>) -> MakeError {
        MakeError::OutOfMemory
    }
}

impl From<AllocError> for MakeError {
    ghost use Rattle.std.specs.Prelude.{◌≡◌};

    ghost from_gives = { λ _ e. e ≡ OutOfMemory };

    fn from(_failed: AllocError) -> MakeError {
        MakeError::OutOfMemory
    }
}
