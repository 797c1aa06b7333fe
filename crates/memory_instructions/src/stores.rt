// The instructions that write a general register to memory (document 000, sections 6.32, 6.34 and 6.35).
ghost use Rattle.instructions.specs.Promises.{Performs};

use crate::accesses;
use arithmetic::sums;
use decoder::{Address, Meaning, Size};
use instructions::{Control, Flow};

#[tactic(auto, using(instructions::proofs::Families::store), unfolding(memory::specs::Access::answered, memory::specs::Access::stored_at))]
pub fn store(
    size: Size,
    m: u8,
    address: Address,
    control: &Control,
    r: &[u32; 16],
    memory: &mut [u8],
) -> Flow
    ensures { Performs (Meaning.Store size m address) control.now r.now memory.old result control.now r.now memory.new }
{
    let at = accesses::effective(size, address, control, r);
    if accesses::store(size, memory, at, r[(m % 16) as usize]).is_err() {
        return Flow::Fault;
    }
    Flow::Next
}

#[tactic(auto, unfolding(instructions::specs::Execute::execute, memory::specs::Access::answered, memory::specs::Access::stored_at))]
pub fn store_decrement(size: Size, m: u8, n: u8, r: &mut [u32; 16], memory: &mut [u8]) -> Flow
    ensures { (c : Control) → Performs (Meaning.StoreDecrement size m n) c r.old memory.old result c r.new memory.new }
{
    let into = (n % 16) as usize;
    let at = sums::sub(accesses::bytes(size), r[into]);
    if accesses::store(size, memory, at, r[(m % 16) as usize]).is_err() {
        return Flow::Fault;
    }
    r[into] = at;
    Flow::Next
}
