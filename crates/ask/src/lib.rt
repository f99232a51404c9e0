// The commands that ask a question: what each asks of an operation, the operation's answer, and the reply.
#![tactic(auto)]

pub mod commands;
pub mod explaining;
pub mod question;
pub mod theorem;

pub use question::{Blocks, Question};
