// A problem and a plan as text.
#![tactic(auto)]

pub mod actions;
pub mod effects;
pub mod formulas;
pub mod plan;
pub mod problem;
pub mod theorem;

pub use plan::push_plan;
pub use problem::push_problem;
