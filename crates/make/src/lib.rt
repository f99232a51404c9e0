// Making the blocks of a problem and of a plan from a text.
#![tactic(auto)]

pub mod actions;
pub mod formulas;
pub mod making;
pub mod problems;
pub mod theorem;

pub use making::{Blocks, make};
