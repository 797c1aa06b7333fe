// The public operations (document 01, "Refusals of a call", "Reset" and "Run").
ghost use Rattle.std.specs.Prelude.{◌≡◌, length};
ghost use Rattle.memory.specs.Lengths.{refused_length};
ghost use Rattle.machine.specs.Calls as Calls;

use crate::{Answer, Machine, Mode, Refusal, Refused, Stop, exceptions, run_loop};
use instructions::Control;

impl Machine {
    // Registers zero, SR H'F0, stopped for reason 2: what a refused reset returns.
    pub fn blank() -> Self
        ensures { result ≡ Calls.blank }
    {
        let control = Control {
            pc: 0,
            sr: 0xf0,
            gbr: 0,
            vbr: 0,
            pr: 0,
            mach: 0,
            macl: 0,
        };
        Machine {
            r: [0; 16],
            control,
            mode: Mode::Stopped(Stop::Vector),
        }
    }
}

pub fn reset(memory: &[u8]) -> Result<Answer, Refused>
    ensures { Calls.Resets memory.now result }
{
    let blank = Machine::blank();
    match check_memory(memory) {
        Ok(()) => Ok(Answer {
            machine: start(blank, memory),
            steps: 0,
        }),
        Err(refusal) => Err(Refused {
            refusal,
            machine: blank,
        }),
    }
}

#[tactic(auto, using(crate::proofs::Calling::pc_opens, crate::proofs::Calling::r15_opens))]
fn start(machine: Machine, memory: &[u8]) -> Machine
    requires { refused_length (length memory.now) ≡ 0 }
    ensures { result ≡ Calls.start machine memory.now }
{
    let mut r = machine.r;
    r[15] = exceptions::long_at(memory, 4);
    let mut control = machine.control;
    control.pc = exceptions::long_at(memory, 0);
    control.sr = 0xf0;
    control.vbr = 0;
    Machine {
        r,
        control,
        mode: Mode::Running,
    }
}

pub fn step(machine: Machine, memory: &mut [u8]) -> Result<Answer, Refused>
    ensures { Calls.Steps machine memory.old result memory.new }
{
    run(machine, memory, 1)
}

pub fn run(machine: Machine, memory: &mut [u8], budget: u32) -> Result<Answer, Refused>
    ensures { Calls.Runs budget machine memory.old result memory.new }
{
    match check(machine, memory) {
        Ok(()) => Ok(run_loop::run_accepted(machine, memory, budget)),
        Err(refusal) => Err(Refused { refusal, machine }),
    }
}

fn check(machine: Machine, memory: &[u8]) -> Result<(), Refusal>
    ensures { Calls.check_number result ≡ Calls.refused machine memory.now }
{
    check_memory(memory)?;
    let sr = machine.control.sr;
    if sr & Control::SR_MASK != sr {
        return Err(Refusal::Status);
    }
    Ok(())
}

// 1 and 2, which are the length's.
fn check_memory(memory: &[u8]) -> Result<(), Refusal>
    ensures { Calls.check_number result ≡ refused_length (length memory.now) }
{
    Ok(memory::check_length(memory.len())?)
}
