// The words of a text that a person writes, such as that of a problem, and what can be wrong with it.
#![tactic(auto)]

pub mod complaint;
pub mod text;

pub use complaint::{Complaint, MakeError};
pub use text::{Text, Word, ends_word};
