// Following a case list, line by line.
#![tactic(auto)]

mod covered;
pub mod follower;
pub mod operations;

pub use covered::Covered;
pub use follower::Follower;
pub use operations::{cover_after, cover_after_task, follow_list, follow_list_task};
