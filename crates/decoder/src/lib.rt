// What a 16-bit instruction word of the SH-2 means: document 000's code table (Table 5.9), as a function.
#![tactic(auto)]

mod code_map;
mod meaning;

pub use code_map::decode;
pub use meaning::{
    Address, Branch, BranchIf, BranchTo, Compare, CompareZero, ControlRegister, Divide, Immediate,
    ImmediateByte, ImmediateR0, Meaning, Multiply, MultiplyAdd, NoOperand, OneRegister, Relative,
    Return, Size, TwoRegisters,
};
