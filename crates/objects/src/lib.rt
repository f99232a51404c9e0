// Each answer as a JSON object on one line, and a text as one.
#![tactic(auto)]

pub mod json;
mod members;
pub mod texts;
