// For measuring (docs/PERFORMANCE.md): resets and runs the image on standard input for 1,000,000 steps, and prints the steps taken and
// the PC in decimal.
#![tactic(auto)]

use machine::{Answer, Refused};
use std::io;

const BUDGET: u32 = 1000000;

fn main(rt: HostRuntime) -> io::Result<()> {
    let mut image = [0u8; 65536];
    let n = input::read_full(&mut rt.stdin(), &mut image);
    let (steps, pc) = match measured(&mut image[..n]) {
        Ok(answer) => (answer.steps, answer.machine.control.pc),
        Err(refused) => (0, refused.machine.control.pc),
    };
    println!(rt; "{steps} {pc}")
}

fn measured(image: &mut [u8]) -> Result<Answer, Refused> {
    let started = machine::reset(image)?;
    machine::run(started.machine, image, BUDGET)
}
