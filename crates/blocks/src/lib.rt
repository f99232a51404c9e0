// The problem and plan blocks: a problem and a task as values, read or refused, and the operations that read them.

#![tactic(auto)]

pub mod actions;
pub mod operations;
pub mod plan;
pub mod problem;
pub mod task;

pub use actions::Actions;
pub use operations::{read_plan, read_problem};
pub use problem::Problem;
pub use task::Task;
