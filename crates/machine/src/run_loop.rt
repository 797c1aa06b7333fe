// A run that is not refused (document 01, "Run"): the hot path.
ghost use Rattle.machine.specs.Promises.{RunsAccepted};

use crate::{Answer, Machine, steps};

// Control registers, general registers and mode are locals: so the compiler keeps them where it likes (docs/PERFORMANCE.md).
pub fn run_accepted(machine: Machine, memory: &mut [u8], budget: u32) -> Answer
    ensures { RunsAccepted budget machine memory.old result memory.new }
{
    let mut r = machine.r;
    let mut control = machine.control;
    let mut mode = machine.mode;
    let mut taken = 0;
    while taken < budget && !mode.is_halted() {
        mode = steps::advance(mode, &mut control, &mut r, memory);
        taken += 1;
    }
    Answer {
        machine: Machine { r, control, mode },
        steps: taken,
    }
}
