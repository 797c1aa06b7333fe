// The instructions that read memory into a general register (document 000, sections 6.32 to 6.36).
ghost use Rattle.instructions.specs.Promises.{Performs};

use crate::accesses;
use arithmetic::{addresses, transfers};
use decoder::{Address, Meaning, Relative, Size};
use instructions::{Control, Flow};
use memory::{Access, Long, Word};

#[tactic(auto, using(instructions::proofs::Families::load))]
pub fn load(
    size: Size,
    address: Address,
    n: u8,
    control: &Control,
    r: &mut [u32; 16],
    memory: &[u8],
) -> Flow
    ensures { Performs (Meaning.Load size address n) control.now r.old memory.now result control.now r.new memory.now }
{
    let at = accesses::effective(size, address, control, r);
    let Some(v) = accesses::load(size, memory, at) else {
        return Flow::Fault;
    };
    r[(n % 16) as usize] = v;
    Flow::Next
}

#[tactic(auto, unfolding(instructions::specs::Execute::execute))]
pub fn load_increment(size: Size, m: u8, n: u8, r: &mut [u32; 16], memory: &[u8]) -> Flow
    ensures { (c : Control) → Performs (Meaning.LoadIncrement size m n) c r.old memory.now result c r.new memory.now }
{
    let from = (m % 16) as usize;
    let at = r[from];
    let Some(v) = accesses::load(size, memory, at) else {
        return Flow::Fault;
    };
    r[from] = at.wrapping_add(accesses::bytes(size));
    r[(n % 16) as usize] = v;
    Flow::Next
}

#[tactic(auto, unfolding(instructions::specs::Execute::execute))]
pub fn relative(
    operation: Relative,
    d: u8,
    n: u8,
    control: &Control,
    r: &mut [u32; 16],
    memory: &[u8],
) -> Flow
    ensures { Performs (Meaning.Relative operation d n) control.now r.old memory.now result control.now r.new memory.now }
{
    let into = (n % 16) as usize;
    let pc = control.pc;
    let given = match operation {
        Relative::MovW => {
            Word::load(memory, addresses::relative_word(pc, d)).map(transfers::exts_w)
        }
        Relative::MovL => Long::load(memory, addresses::relative_long(pc, d)),
        Relative::Mova => Some(addresses::relative_long(pc, d)),
    };
    let Some(v) = given else {
        return Flow::Fault;
    };
    r[into] = v;
    Flow::Next
}
