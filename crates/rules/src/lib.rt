#![tactic(auto)]

pub mod checker;
pub mod fault;
pub mod search;
pub mod types;
