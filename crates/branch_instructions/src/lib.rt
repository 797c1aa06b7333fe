// The instructions that rewrite the PC, but for TRAPA, which only gives its vector number.
#![tactic(auto)]

pub mod branches;
pub mod returns;
