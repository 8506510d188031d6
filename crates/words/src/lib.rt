#![tactic(auto)]

pub mod laws;
pub mod lexer;
mod meaning;
pub mod reader;
mod spelling;
pub mod token;
