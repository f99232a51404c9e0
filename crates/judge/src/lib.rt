// The judge's verdict, by one walk; and what of it survives a larger grant and a narrower start.

#![tactic(auto)]

pub mod operation;
pub mod theorem;

pub use operation::{judge, judge_task};
