// Runs the 66-step division (document 01, "The division, in full") over 28 inputs, each cut into runs in four ways, and prints low, high, Q,
// T and the steps reported in sum.
#![tactic(auto)]

use machine::{Answer, Machine, Mode, Refused};
use memory::{Access, Fault, Word};
use std::io;

// High, low and the divisor.
const CASES: [(u32, u32, u32); 28] = [
    (0x0, 0x64, 0x7),
    (0x1, 0x0, 0x3),
    (0x6, 0xffffffff, 0x7),
    (0x0, 0x64, 0x0),
    (0x0, 0x0, 0x1),
    (0x0, 0xffffffff, 0x1),
    (0x0, 0x1, 0x1),
    (0x0, 0xbc614e, 0x1),
    (0x6, 0x0, 0x7),
    (0x7ffffffe, 0xffffffff, 0x7fffffff),
    (0xfffffffd, 0x89abcdef, 0xfffffffe),
    (0x7fffffff, 0x5, 0x80000000),
    (0x0, 0x0, 0xffffffff),
    (0xfffffffe, 0x0, 0xffffffff),
    (0xfffffffe, 0xffffffff, 0xffffffff),
    (0x12345678, 0x9abcdef0, 0xffffffff),
    (0x0, 0x0, 0x0),
    (0x1, 0x0, 0x0),
    (0xffffffff, 0xffffffff, 0x0),
    (0x80000000, 0x7fffffff, 0x0),
    (0x12345678, 0x9abcdef0, 0x0),
    (0x7, 0x64, 0x7),
    (0xffffffff, 0xffffffff, 0x1),
    (0x80000000, 0x0, 0x3),
    (0xffffffff, 0x0, 0xffffffff),
    (0x5, 0xffffffff, 0x2),
    (0xabcd, 0x12345678, 0xabce),
    (0x0, 0x15180, 0xe10),
];

// How many runs each cut has: budgets of 0 follow those that it names.
const RUNS: usize = 66;

// The budgets of each cut: one run of 66; 66 runs of 1; 1 and 65; uneven ones.
const CUTS: [&[u32]; 4] = [&[66], &[1; 66], &[1, 65], &UNEVEN];

// Budgets whose sum is 66, many of them 0.
const UNEVEN: [u32; 66] = [
    0, 0, 0, 0, 0, 0, 0, 0, 6, 3, 0, 0, 6, 0, 7, 0, 7, 0, 0, 0, 0, 4, 0, 0, 0, 0, 0, 0, 0, 0, 0, 0,
    7, 0, 0, 0, 0, 0, 0, 0, 0, 0, 0, 0, 0, 0, 6, 0, 0, 1, 0, 0, 0, 0, 0, 2, 0, 3, 6, 5, 0, 0, 0, 2,
    1, 0,
];

const START: u32 = 0x200;

const DIV0U: u32 = 0x0019;

const ROTCL_R1: u32 = 0x4124;

const DIV1_R0_R2: u32 = 0x3204;

fn main(rt: HostRuntime) -> io::Result<()> {
    let mut image = [0u8; 1024];
    if place(&mut image).is_err() {
        return println!(rt; "the sequence does not fit");
    }
    for (high, low, divisor) in CASES {
        for (cut, budgets) in CUTS.iter().enumerate() {
            print!(rt; "{high:08x}:{low:08x} / {divisor:08x} cut {cut}: ")?;
            match divide(before(high, low, divisor), &mut image, budgets) {
                Ok(answer) => print_after(&rt, &answer)?,
                Err(refused) => println!(rt; "refused {}", u32::from(refused.refusal))?,
            }
        }
    }
    Ok(())
}

fn place(image: &mut [u8]) -> Result<(), Fault> {
    Word::store(image, START, DIV0U)?;
    for pair in 0..32 {
        let at = START + 2 + pair * 4;
        Word::store(image, at, ROTCL_R1)?;
        Word::store(image, at + 2, DIV1_R0_R2)?;
    }
    Word::store(image, START + 130, ROTCL_R1)
}

// The divisor is in R0, low in R1, high in R2.
fn before(high: u32, low: u32, divisor: u32) -> Machine {
    let mut machine = Machine::blank();
    machine.r[0] = divisor;
    machine.r[1] = low;
    machine.r[2] = high;
    machine.control.pc = START;
    machine.mode = Mode::Running;
    machine
}

// What the last run answers, with the steps of all.
fn divide(before: Machine, image: &mut [u8], budgets: &[u32]) -> Result<Answer, Refused> {
    let mut sum = Answer {
        machine: before,
        steps: 0,
    };
    for budget in budgets.iter().chain([0; RUNS].iter()).take(RUNS) {
        let answer = machine::run(sum.machine, image, *budget)?;
        sum = Answer {
            steps: sum.steps.saturating_add(answer.steps),
            ..answer
        };
    }
    Ok(sum)
}

fn print_after(rt: &impl Print, answer: &Answer) -> io::Result<()> {
    let Machine { r, control, .. } = answer.machine;
    let q = control.q_bit();
    let t = control.t_bit();
    println!(rt; "{:08x} {:08x} {q} {t} {}", r[1], r[2], answer.steps)
}
