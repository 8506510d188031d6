#![tactic(auto)]

pub mod parse;
pub mod tree;
