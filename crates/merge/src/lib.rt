// Two halls that share no fact and no action, as one problem.

#![tactic(auto)]

pub mod both;
pub mod halls;
pub mod operation;
pub mod theorem;
pub mod write;

pub use operation::merge;
