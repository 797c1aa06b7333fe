// The image of an example, and its execution. Reset reads the address of a prologue, which loads the registers from their longs.
use crate::table::{Before, Code, Example, Register};
use machine::Answer;
use memory::{Access, Fault, Long, Word};

const SLEEP: u16 = 0x001b;

const PROLOGUE_AT: u32 = 0x400;

const REGISTERS_AT: u32 = 0x500;

// Reset has set R15 to the registers' longs.
const PROLOGUE: [u16; 22] = [
    0x4f17, // LDC.L @R15+,GBR
    0x4f27, // LDC.L @R15+,VBR
    0x4f06, // LDS.L @R15+,MACH
    0x4f16, // LDS.L @R15+,MACL
    0x4f26, // LDS.L @R15+,PR
    0x60f6, // MOV.L @R15+,R0
    0x61f6, // MOV.L @R15+,R1
    0x62f6, // MOV.L @R15+,R2
    0x63f6, // MOV.L @R15+,R3
    0x64f6, // MOV.L @R15+,R4
    0x65f6, // MOV.L @R15+,R5
    0x66f6, // MOV.L @R15+,R6
    0x67f6, // MOV.L @R15+,R7
    0x68f6, // MOV.L @R15+,R8
    0x69f6, // MOV.L @R15+,R9
    0x6af6, // MOV.L @R15+,R10
    0x6bf6, // MOV.L @R15+,R11
    0x6cf6, // MOV.L @R15+,R12
    0x6df6, // MOV.L @R15+,R13
    0x6ef6, // MOV.L @R15+,R14
    0x002b, // RTE, which loads PC and SR
    0x6ff6, // MOV.L @R15+,R15, in the slot of RTE
];

// The prologue is run apart, so that the steps of the answer are the example's. There is none where the example does not fit.
pub fn execute(image: &mut [u8], example: &Example) -> Option<Answer> {
    prepare(image).ok()?;
    lay_out(image, example).ok()?;
    let started = machine::reset(image).ok()?;
    let loaded = machine::run(started.machine, image, PROLOGUE.len() as u32).ok()?;
    machine::run(loaded.machine, image, example.budget).ok()
}

// What every example needs.
fn prepare(image: &mut [u8]) -> Result<(), Fault> {
    Long::store(image, 0, PROLOGUE_AT)?;
    Long::store(image, 4, REGISTERS_AT)?;
    append(image, PROLOGUE_AT, &PROLOGUE)?;
    Ok(())
}

fn lay_out(image: &mut [u8], example: &Example) -> Result<(), Fault> {
    set(image, Register::PC, example.start)?;
    for before in example.before {
        match *before {
            Before::Set(register, value) => set(image, register, value)?,
            Before::Store(at, value) => Long::store(image, at, value)?,
        }
    }
    let mut at = example.start;
    for code in example.program {
        at = match *code {
            Code::Word(word) => append(image, at, &[word])?,
            Code::Repeat(times, words) => repeat(image, at, times, words)?,
        };
    }
    append(image, at, &[SLEEP])?;
    Ok(())
}

fn set(image: &mut [u8], register: Register, value: u32) -> Result<(), Fault> {
    Long::store(image, REGISTERS_AT + register as u32 * 4, value)
}

fn repeat(image: &mut [u8], at: u32, times: u8, words: &[u16]) -> Result<u32, Fault> {
    let mut next = at;
    for _ in 0..times {
        next = append(image, next, words)?;
    }
    Ok(next)
}

// Stores words of a program, and gives the address of the next.
fn append(image: &mut [u8], at: u32, words: &[u16]) -> Result<u32, Fault> {
    let mut next = at;
    for word in words {
        Word::store(image, next, *word as u32)?;
        next = next.wrapping_add(2);
    }
    Ok(next)
}
