#![tactic(auto)]

pub mod program;
pub mod table;
pub mod types;
