// Which start facts an outcome rests on.

#![tactic(auto)]

pub mod operation;
pub mod sparse;

pub use operation::relevant_facts;
pub use sparse::relevant_facts_sparse;
