// The status that the program exits with.
ghost use Rattle.std.specs.Prelude.{◌≡◌};
ghost use Rattle.std.specs.Process.{exit_status};

use crate::answer::Answer;
use crate::rows::FaultRow;
use model::{Outcome, Refusal, Search, Verdict};
use std::process::ExitCode;

#[derive(Clone, Copy, PartialEq, Eq, Debug)]
pub enum Status {
    // Right, passes, reached or found.
    Yes,
    // Wrong, a list that does not hold, missed, blocked, or no plan found.
    No,
    Undecided,
    // A block, a text or a list of names is malformed.
    Malformed,
    // A file, or the standard output, cannot be read or written.
    Unwritten,
    // The command line is wrong.
    Usage,
}

impl Status {
    ghost use Rattle.model.specs.Answers.{verdict as verdict_of, outcome as outcome_of, search_end};
    ghost use Rattle.answers.specs.Status.{status_number, verdict_status, outcome_status, search_status, answer_status, status_of};

    // Its number.
    pub fn code(self) -> u8
        ensures { result ≡ status_number self }
    {
        match self {
            Status::Yes => 0,
            Status::No => 1,
            Status::Undecided => 2,
            Status::Malformed => 3,
            Status::Unwritten => 4,
            Status::Usage => 64,
        }
    }

    // That of what an operation answered, or of its refusal.
    pub fn of(answer: Result<Answer, Refusal>) -> Status
        ensures { result ≡ status_of answer }
    {
        match answer {
            Ok(Answer::Judged(verdict)) => Status::of_verdict(verdict),
            Ok(Answer::Written(_)) => Status::Yes,
            Ok(Answer::Followed(_)) => Status::Yes,
            Ok(Answer::Ran(outcome)) => Status::of_outcome(outcome),
            Ok(Answer::Rests(_)) => Status::Yes,
            Ok(Answer::Searched(search)) => Status::of_search(search),
            Err(refusal) => FaultRow::of(refusal.fault).status,
        }
    }

    fn of_verdict(verdict: Verdict) -> Status
        ensures { result ≡ verdict_status (verdict_of verdict) }
    {
        match verdict {
            Verdict::Right { .. } => Status::Yes,
            Verdict::Wrong { .. } => Status::No,
            Verdict::Undecided { .. } => Status::Undecided,
        }
    }

    fn of_outcome(outcome: Outcome) -> Status
        ensures { result ≡ outcome_status (outcome_of outcome) }
    {
        match outcome {
            Outcome::Reached => Status::Yes,
            Outcome::Missed => Status::No,
            Outcome::Blocked(_) => Status::No,
        }
    }

    fn of_search(search: Search) -> Status
        ensures { result ≡ search_status (search_end search) }
    {
        match search {
            Search::Found { .. } => Status::Yes,
            Search::NoneRight { .. } => Status::No,
            Search::Undecided { .. } => Status::Undecided,
        }
    }
}

impl From<Status> for ExitCode {
    ghost use Rattle.answers.specs.Status.{status_number};

    ghost from_gives = { λ status e. exit_status e ≡ status_number status };

    fn from(status: Status) -> ExitCode {
        ExitCode::from(status.code())
    }
}
