// The instructions that test or change one byte in place (document 000, sections 6.5, 6.45, 6.66, 6.68 and 6.69).
ghost use Rattle.instructions.specs.Promises.{Performs, Replaces};

use arithmetic::logic;
use decoder::{ImmediateByte, Meaning};
use instructions::{Control, Flow};
use memory::{Access, Byte};

#[tactic(auto, unfolding(instructions::specs::Execute::execute))]
pub fn immediate_byte(
    operation: ImmediateByte,
    i: u8,
    control: &mut Control,
    r: &[u32; 16],
    memory: &mut [u8],
) -> Flow
    ensures { Performs (Meaning.ImmediateByte operation i) control.old r.now memory.old result control.new r.now memory.new }
{
    let at = control.gbr.wrapping_add(r[0]);
    let Some(v) = Byte::load(memory, at) else {
        return Flow::Fault;
    };
    match operation {
        ImmediateByte::AndB => replace(logic::and(i as u32, v), at, memory),
        ImmediateByte::OrB => replace(logic::or(i as u32, v), at, memory),
        ImmediateByte::TstB => {
            control.set_t(logic::tst(i as u32, v));
            Flow::Next
        }
        ImmediateByte::XorB => replace(logic::xor(i as u32, v), at, memory),
    }
}

#[tactic(auto, unfolding(instructions::specs::Execute::execute, memory::specs::Access::answered, memory::specs::Access::stored_at))]
pub fn tas_b(n: u8, control: &mut Control, r: &[u32; 16], memory: &mut [u8]) -> Flow
    ensures { Performs (Meaning.TasB n) control.old r.now memory.old result control.new r.now memory.new }
{
    let at = r[(n % 16) as usize];
    let Some(v) = Byte::load(memory, at) else {
        return Flow::Fault;
    };
    if Byte::store(memory, at, logic::or(128, v)).is_err() {
        return Flow::Fault;
    }
    control.set_t((v == 0) as u32);
    Flow::Next
}

#[tactic(auto, unfolding(memory::specs::Access::answered, memory::specs::Access::stored_at))]
fn replace(byte: u32, at: u32, memory: &mut [u8]) -> Flow
    ensures { Replaces byte at memory.old result memory.new }
{
    if Byte::store(memory, at, byte).is_err() {
        return Flow::Fault;
    }
    Flow::Next
}
