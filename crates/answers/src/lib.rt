// What the commands answer: an operation's answer or refusal, its words, and the exit status.
#![tactic(auto)]

pub mod answer;
pub mod marks;
pub mod reasons;
pub mod rows;
pub mod status;

pub use answer::Answer;
pub use marks::{Facts, Marks};
pub use reasons::RefusalWords;
pub use rows::{FaultRow, Unit};
pub use status::Status;
