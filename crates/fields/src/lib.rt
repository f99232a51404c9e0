// What blocks are made of: the header, counts of one byte, and actions.

#![tactic(auto)]

pub mod action;
pub mod actions;
pub mod header;

pub use action::read_action;
pub use actions::{Action, Effect, Effects};
pub use header::{check_header, check_list_header, count_at};
