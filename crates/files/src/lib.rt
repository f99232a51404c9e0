// Files: what they are to a command, read whole and once, and written whole or not at all.
#![tactic(auto)]

pub mod kinds;
pub mod read;
pub mod role;
pub mod same;
pub mod write;

pub use kinds::ErrorWords;
pub use read::{first_bytes, read_at_most, read_file, read_path};
pub use role::Role;
pub use same::lead_to_one_file;
pub use write::{save, write_bytes};
