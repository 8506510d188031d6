#![tactic(auto)]

pub mod refused;
pub mod text;
