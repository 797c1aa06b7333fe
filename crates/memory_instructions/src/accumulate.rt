// MAC.L and MAC.W (document 000, sections 6.29 and 6.31). Rn steps on before @Rm is read, so that with m = n the operands are neighbours;
// where that read faults, Rn is set back.
ghost use Rattle.std.specs.Prelude.{◌≡◌};
ghost use Rattle.memory.specs.Access.{loaded};
ghost use Rattle.instructions.specs.Promises as Promises;

use decoder::{Meaning, MultiplyAdd};
use instructions::{Control, Flow};
use memory::{Access, Long, Word};
use multiply::Mac;

#[tactic(auto, using(crate::proofs::Registers::set_back), unfolding(instructions::specs::Execute::execute))]
pub fn multiply_add(
    operation: MultiplyAdd,
    m: u8,
    n: u8,
    control: &mut Control,
    r: &mut [u32; 16],
    memory: &[u8],
) -> Flow
    ensures { Promises.Performs (Meaning.MultiplyAdd operation m n) control.old r.old memory.now result control.new r.new memory.now }
{
    let from = (m % 16) as usize;
    let into = (n % 16) as usize;
    let k = operand_bytes(operation);
    let first = r[into];
    let Some(b) = operand(operation, memory, first) else {
        return Flow::Fault;
    };
    r[into] = first.wrapping_add(k);
    let Some(a) = operand(operation, memory, r[from]) else {
        r[into] = first;
        return Flow::Fault;
    };
    r[from] = r[from].wrapping_add(k);
    let s = control.s_bit();
    let sum = accumulated(operation, control.mach, control.macl, s, a, b);
    control.mach = sum.mach;
    control.macl = sum.macl;
    Flow::Next
}

fn operand_bytes(operation: MultiplyAdd) -> u32
    ensures { result ≡ Promises.operand_bytes operation }
{
    match operation {
        MultiplyAdd::MacL => Long::BYTES,
        MultiplyAdd::MacW => Word::BYTES,
    }
}

fn operand(operation: MultiplyAdd, memory: &[u8], at: u32) -> Option<u32>
    ensures { result ≡ loaded (Promises.operand_bytes operation) memory.now at }
{
    match operation {
        MultiplyAdd::MacL => Long::load(memory, at),
        MultiplyAdd::MacW => Word::load(memory, at),
    }
}

fn accumulated(operation: MultiplyAdd, mach: u32, macl: u32, s: u32, a: u32, b: u32) -> Mac
    ensures { result ≡ Promises.accumulated operation mach macl s a b }
{
    let before = Mac { mach, macl };
    match operation {
        MultiplyAdd::MacL => multiply::mac_l(before, s, a, b),
        MultiplyAdd::MacW => multiply::mac_w(before, s, a, b),
    }
}
