// LDC, LDS, STC and STS (document 000, sections 6.27, 6.28, 6.60 and 6.61): between a control register and a general one, or memory.
ghost use Rattle.std.specs.Prelude.{ℕ, List};
ghost use Rattle.instructions.specs.Promises.{Performs};

use arithmetic::sums;
use decoder::{ControlRegister, Meaning};
use instructions::{Control, Flow};
use memory::{Access, Long};

#[tactic(auto, unfolding(instructions::specs::Execute::execute))]
pub fn load_control(register: ControlRegister, m: u8, control: &mut Control, r: &[u32; 16])
    ensures { (memory : List ℕ) → Performs (Meaning.LoadControl register m) control.old r.now memory Flow.Next control.new r.now memory }
{
    control.set_register(register, r[(m % 16) as usize]);
}

#[tactic(auto, unfolding(instructions::specs::Execute::execute))]
pub fn load_control_long(
    register: ControlRegister,
    m: u8,
    control: &mut Control,
    r: &mut [u32; 16],
    memory: &[u8],
) -> Flow
    ensures { Performs (Meaning.LoadControlLong register m) control.old r.old memory.now result control.new r.new memory.now }
{
    let from = (m % 16) as usize;
    let at = r[from];
    let Some(v) = Long::load(memory, at) else {
        return Flow::Fault;
    };
    r[from] = at.wrapping_add(Long::BYTES);
    control.set_register(register, v);
    Flow::Next
}

#[tactic(auto, unfolding(instructions::specs::Execute::execute))]
pub fn store_control(register: ControlRegister, n: u8, control: &Control, r: &mut [u32; 16])
    ensures { (memory : List ℕ) → Performs (Meaning.StoreControl register n) control.now r.old memory Flow.Next control.now r.new memory }
{
    r[(n % 16) as usize] = control.register(register);
}

#[tactic(auto, unfolding(instructions::specs::Execute::execute, memory::specs::Access::answered, memory::specs::Access::stored_at))]
pub fn store_control_long(
    register: ControlRegister,
    n: u8,
    control: &Control,
    r: &mut [u32; 16],
    memory: &mut [u8],
) -> Flow
    ensures { Performs (Meaning.StoreControlLong register n) control.now r.old memory.old result control.now r.new memory.new }
{
    let into = (n % 16) as usize;
    let at = sums::sub(Long::BYTES, r[into]);
    if Long::store(memory, at, control.register(register)).is_err() {
        return Flow::Fault;
    }
    r[into] = at;
    Flow::Next
}
