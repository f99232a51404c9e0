// The desk program's page: the text of each of its lines, whole and in room of its own, and what a page and each of its parts display.
#![tactic(auto)]

pub mod cut;
pub mod first_line;
pub mod list;
pub mod marks;
pub mod number;
pub mod page;
pub mod text;

pub use first_line::FirstLine;
pub use list::{ListLine, ListLines, TooLong};
pub use page::{Page, Rest};
pub use text::{LINE_ROOM, LineText};
