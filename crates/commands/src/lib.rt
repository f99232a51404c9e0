// What a command line asks for, by what clap found on it, and which files that reads and writes.
#![tactic(auto)]

pub mod command;
pub mod paths;

pub use command::{Command, Request, TaskPaths};
pub use paths::FilePath;
