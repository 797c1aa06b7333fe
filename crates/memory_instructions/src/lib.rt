// The instructions that read or write memory, and those that move a control or system register: LDC, LDS, STC and STS.
#![tactic(auto)]

mod accesses;
pub mod accumulate;
pub mod byte_logic;
pub mod loads;
pub mod stores;
pub mod system;
