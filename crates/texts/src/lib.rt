// The commands of texts: a problem is shown as a text, and blocks are made of one.
#![tactic(auto)]

pub mod making;
pub mod place;
pub mod showing;
pub mod theorem;

pub use making::{Made, make};
pub use showing::show;
