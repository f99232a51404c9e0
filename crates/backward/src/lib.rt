// A run taken forward and gone through backward: the facts that matter before each of its steps, from the goal's facts to those of the start.
#![tactic(auto)]

pub mod changes;
pub mod facts;
pub mod kept;
pub mod matters;
pub mod named;
pub mod rows;
pub mod stretches;
pub mod trace;

pub use facts::FactSet;
pub use kept::{STRETCH, keep_rows};
pub use matters::{Mark, matters_before};
pub use named::named_facts;
pub use rows::{put_run, take_steps};
pub use stretches::trace_stretches;
pub use trace::trace_back;
