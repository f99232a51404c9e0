// How facts and actions are spoken of: by number, or by names that a text gives; and what literals and formulas are written as.
#![tactic(auto)]

pub mod formulas;
pub mod lists;
pub mod names;

pub use formulas::{LiteralText, push_first, push_formula};
pub use lists::{NameList, NamesError, is_name};
pub use names::{ActionName, FactName, Names};
