// Case lists, the certificates of right plans, as they are written; and what they promise with the checker.
#![tactic(auto)]

pub mod theorem;
pub mod write;

pub use write::{write_list, write_list_task};
