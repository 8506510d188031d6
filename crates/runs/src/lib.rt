#![tactic(auto)]

pub mod run;
pub mod state;
pub mod value;
