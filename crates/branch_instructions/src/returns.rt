// RTE and RTS (document 000, sections 6.50 and 6.51; document 01, "Branch addresses").
ghost use Rattle.instructions.specs.Promises.{Performs};

use decoder::{Meaning, Return};
use instructions::{Control, Flow};
use memory::{Access, Long};

#[tactic(auto, unfolding(instructions::specs::Execute::execute))]
pub fn return_by(operation: Return, control: &mut Control, r: &mut [u32; 16], memory: &[u8]) -> Flow
    ensures { Performs (Meaning.Return operation) control.old r.old memory.now result control.new r.new memory.now }
{
    match operation {
        Return::Rte => from_exception(control, r, memory),
        Return::Rts => Flow::Delay(control.pr),
    }
}

#[tactic(auto, unfolding(instructions::specs::Execute::execute))]
fn from_exception(control: &mut Control, r: &mut [u32; 16], memory: &[u8]) -> Flow
    ensures { Performs (Meaning.Return Return.Rte) control.old r.old memory.now result control.new r.new memory.now }
{
    let top = r[15];
    let Some(pc) = Long::load(memory, top) else {
        return Flow::Fault;
    };
    let Some(popped) = Long::load(memory, top.wrapping_add(4)) else {
        return Flow::Fault;
    };
    r[15] = top.wrapping_add(8);
    control.sr = popped & Control::SR_MASK;
    Flow::Delay(pc)
}
