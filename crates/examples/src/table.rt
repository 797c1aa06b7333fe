// What an example is: its parts, in the order in which the manual has them.
use machine::Machine;

#[derive(Clone, Copy)]
pub struct Example {
    // The section, and the program in the manual's words.
    pub title: &'static str,
    // The address of the program's first word, where execution starts.
    pub start: u32,
    pub before: &'static [Before],
    // SLEEP follows it.
    pub program: &'static [Code],
    // At most so many steps are executed.
    pub budget: u32,
    pub after: &'static [After],
}

// What most examples have.
pub const PLAIN: Example = Example {
    title: "",
    start: 0x1000,
    before: &[],
    program: &[],
    budget: 100,
    after: &[],
};

// The state before execution.
#[derive(Clone, Copy)]
pub enum Before {
    Set(Register, u32),
    // A long of the memory: its address and its value.
    Store(u32, u32),
}

#[derive(Clone, Copy)]
pub enum Code {
    Word(u16),
    // The manual's .arepeat, with its number.
    Repeat(u8, &'static [u16]),
}

// What is printed of the state after execution: registers, and parts of the memory by the manual's name and the address.
#[derive(Clone, Copy)]
pub enum After {
    Value(Register),
    // The low 16 bits.
    LastWord(Register),
    LongAt(&'static str, u32),
    WordAt(&'static str, u32),
    ByteAt(&'static str, u32),
    T,
    // Whether the machine is asleep, 1 or 0.
    Asleep,
    // The steps of the example, its SLEEP included.
    Steps,
}

// In the order in which `image::PROLOGUE` loads them.
#[derive(Clone, Copy, Debug)]
pub enum Register {
    GBR,
    VBR,
    MACH,
    MACL,
    PR,
    R0,
    R1,
    R2,
    R3,
    R4,
    R5,
    R6,
    R7,
    R8,
    R9,
    R10,
    R11,
    R12,
    R13,
    R14,
    PC,
    SR,
    R15,
}

impl Register {
    pub fn value(self, machine: &Machine) -> u32 {
        match self {
            Register::GBR => machine.control.gbr,
            Register::VBR => machine.control.vbr,
            Register::MACH => machine.control.mach,
            Register::MACL => machine.control.macl,
            Register::PR => machine.control.pr,
            Register::R0 => machine.r[0],
            Register::R1 => machine.r[1],
            Register::R2 => machine.r[2],
            Register::R3 => machine.r[3],
            Register::R4 => machine.r[4],
            Register::R5 => machine.r[5],
            Register::R6 => machine.r[6],
            Register::R7 => machine.r[7],
            Register::R8 => machine.r[8],
            Register::R9 => machine.r[9],
            Register::R10 => machine.r[10],
            Register::R11 => machine.r[11],
            Register::R12 => machine.r[12],
            Register::R13 => machine.r[13],
            Register::R14 => machine.r[14],
            Register::PC => machine.control.pc,
            Register::SR => machine.control.sr,
            Register::R15 => machine.r[15],
        }
    }
}
