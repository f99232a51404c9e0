// Lines of a case list: reading one, checking its form, writing one. A checker needs this crate and no walk.
#![tactic(auto)]

pub mod line;
pub mod raw;
pub mod reader;

pub use line::Line;
pub use raw::RawLine;
pub use reader::{ListCursor, ListReader, check_line};
