#![tactic(auto)]

mod board;
pub mod coin;
pub mod machine;
pub mod order;
pub mod script;
