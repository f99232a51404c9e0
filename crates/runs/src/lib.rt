// The runs of a task: in 64 cases at once, with what a visit finds of them, and in one case or state alone.
#![tactic(auto)]

pub mod lanes;
pub mod outcome;
pub mod state;

pub use lanes::{Looks, look, reached_lanes, start_lanes};
pub use outcome::run_of_case;
pub use state::{cases_of_state, state_cases};
