// Every plan of a problem up to a length, tried in order.
#![tactic(auto)]

pub mod below;
pub mod operation;
pub mod plan;

pub use operation::search_plans;
