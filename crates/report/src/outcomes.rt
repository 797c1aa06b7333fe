// What an image leads to: reset, then a run with the runner's budget (document 01, "The runner").
ghost use Rattle.std.specs.Prelude.{◌≡◌};
ghost use Rattle.machine.specs.Calls as Calls;
ghost use Rattle.report.specs.Report as Report;

use machine::{Answer, Machine, Refusal, Refused};

const LONGEST: usize = 65536;

const BUDGET: u32 = 1000000;

#[tactic(auto, using(crate::proofs::Reporting::goes_on, crate::proofs::Reporting::stays))]
pub fn outcome(memory: &mut [u8]) -> Result<Answer, Refused>
    ensures { Calls.called result memory.new ≡ Report.outcome memory.old }
{
    let start = begin(memory)?;
    machine::run(start.machine, memory, BUDGET)
}

fn begin(memory: &[u8]) -> Result<Answer, Refused>
    ensures { Calls.called result memory.now ≡ Calls.reset_by (Report.refused_image memory.now) memory.now }
{
    if memory.len() > LONGEST {
        return Err(Refused {
            refusal: Refusal::Size,
            machine: Machine::blank(),
        });
    }
    machine::reset(memory)
}
