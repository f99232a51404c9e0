// Running one state: by its number, in a task or in the blocks of a problem and a plan.
#![tactic(auto)]

pub mod operation;
pub mod start;

pub use operation::run;
pub use start::run_task;
