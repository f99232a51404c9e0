// 64 cases at once, a bit ("lane") each, and the values of formulas in them.
#![tactic(auto)]

mod block;
pub mod case;
pub mod cases;
pub mod evaluator;
pub mod value;
mod words;

pub use block::LEVELS;
pub use case::Case;
pub use cases::Cases;
pub use evaluator::{evaluate, evaluate_first};
pub use value::Value;
pub use words::{ONES, lane_bit, set_literal, spread, word_of};
