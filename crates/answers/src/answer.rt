// What each command answers.
use model::{Outcome, Search, Verdict};

// What an operation answered that was not refused.
#[derive(Clone, Copy)]
pub enum Answer {
    Judged(Verdict),
    // The bytes of the list.
    Written(usize),
    // The lines of the list, which passes.
    Followed(usize),
    Ran(Outcome),
    // The facts on which a run rests, as the number of a state.
    Rests(u64),
    Searched(Search),
}
