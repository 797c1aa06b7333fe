// The instructions that work on registers alone.
#![tactic(auto)]

pub mod registers;
mod results;
