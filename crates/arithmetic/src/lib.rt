// The manual's computations on numbers, without registers, PC or memory: sums, comparisons, logic, transfers and addresses.
#![tactic(auto)]

pub mod addresses;
pub mod compares;
pub mod logic;
pub mod sums;
pub mod transfers;
