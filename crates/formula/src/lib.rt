// Formulas in bytes: reading one, which refuses what is none, and formulas as values, which are sound by their type.

#![tactic(auto)]

pub mod find;
pub mod formulas;
pub mod literal;
pub mod literals;
pub mod read;

pub use find::{Found, find_formula};
pub use formulas::{Formula, Formulas, Members, Next};
pub use literal::Literal;
pub use literals::Literals;
pub use read::{is_literal, read_formula};
