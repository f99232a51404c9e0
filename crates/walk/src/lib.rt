// The walk over cases under a grant of visits. What becomes of the lines of closed cases is a parameter.
#![tactic(auto)]

pub mod block;
pub mod case;
pub mod page;
pub mod tables;
pub mod visits;

pub use block::{Block, first_levels};
pub use case::{Case, Lines, Unkept};
pub use page::Page;
pub use tables::Tables;
pub use visits::{Closed, Stopped, walk_block, walk_task};
