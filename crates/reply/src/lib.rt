// What a command replies, from what is asked and answered: the text that is printed, the exit status, and the bytes of a file.
#![tactic(auto)]

pub mod failure;
pub mod marks;
pub mod plan_block;
pub mod replies;
pub mod state_lines;
pub mod telling;
pub mod unanswered;

pub use failure::Failure;
pub use replies::Reply;
pub use telling::{Spoken, Telling, Unspoken};
pub use unanswered::Unanswered;
