// What an answer is told as: a line, in names or numbers.
#![tactic(auto)]

pub mod line;
pub mod states;

pub use line::{RefusalLine, Told};
pub use states::StateText;
