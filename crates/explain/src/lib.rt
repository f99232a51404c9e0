// A run, told step by step.
#![tactic(auto)]

pub mod explanation;
pub mod formulas;
pub mod steps;
pub mod telling;
pub mod theorem;

pub use explanation::{ExplainError, push_explanation};
