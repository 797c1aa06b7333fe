// The division of 64 bits by 32 in 66 instructions, proved about the machine's steps (specs/Division.antt). It has no code of its own.
#![tactic(auto)]
