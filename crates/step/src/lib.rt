// One action in 64 cases at once: it is obeyed where it is applicable. The hot path: nothing that reading established is tested again, and a
// step touches only the facts that its action names.
#![tactic(auto)]

pub mod action;
pub mod conditions;
pub mod part;

pub use action::{Hindrance, obey};
pub use conditions::Conditions;
pub use part::hindering_part;
