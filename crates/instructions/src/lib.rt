// What an instruction does to registers and memory, and where it leads: the definition of all 142, and the control registers and flows that
// their functions share.
#![tactic(auto)]

mod control;

pub use control::{Control, Flow};
