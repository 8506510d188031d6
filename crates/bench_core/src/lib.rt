#![tactic(auto)]

pub mod bench;
mod report;
pub mod session;
