// One instruction: its effect on registers and memory, and where it leads. A function for each shape does the work.
#![tactic(auto)]

ghost use Rattle.std.specs.Prelude.{◌≡◌, true};
ghost use Rattle.decoder.specs.Slot.{rewrites_pc};
ghost use Rattle.instructions.specs.Promises.{Attempts};

use branch_instructions::{branches, returns};
use decoder::Meaning;
use instructions::{Control, Flow};
use memory_instructions::{accumulate, byte_logic, loads, stores, system};
use register_instructions::registers;

// Nothing stands between the decoder and this match, so that the compiler can lead each word of the code table straight to its shape.
// The PC is only read: what settles a step moves it.
#[tactic(auto, using(decoder::proofs::Rewriting::rewrites), unfolding(instructions::specs::Execute::attempted, instructions::specs::Execute::execute))]
pub fn attempt(
    meaning: Meaning,
    slot: bool,
    control: &mut Control,
    r: &mut [u32; 16],
    memory: &mut [u8],
) -> Flow
    ensures { Attempts slot meaning control.old r.old memory.old result control.new r.new memory.new }
{
    match meaning {
        Meaning::Undefined => Flow::Illegal,
        Meaning::NoOperand(op) => registers::no_operand(op, control),
        Meaning::OneRegister(op, n) => {
            registers::one_register(op, n, control, r);
            Flow::Next
        }
        Meaning::CompareZero(op, n) => {
            registers::compare_zero(op, n, control, r);
            Flow::Next
        }
        Meaning::TwoRegisters(op, m, n) => {
            registers::two_registers(op, m, n, control, r);
            Flow::Next
        }
        Meaning::Compare(op, m, n) => {
            registers::compare(op, m, n, control, r);
            Flow::Next
        }
        Meaning::Divide(op, m, n) => {
            registers::divide(op, m, n, control, r);
            Flow::Next
        }
        Meaning::Multiply(op, m, n) => {
            registers::multiply(op, m, n, control, r);
            Flow::Next
        }
        Meaning::MultiplyAdd(op, m, n) => accumulate::multiply_add(op, m, n, control, r, memory),
        Meaning::Immediate(op, i, n) => {
            registers::immediate(op, i, n, r);
            Flow::Next
        }
        Meaning::ImmediateR0(op, i) => {
            registers::immediate_r0(op, i, control, r);
            Flow::Next
        }
        Meaning::ImmediateByte(op, i) => byte_logic::immediate_byte(op, i, control, r, memory),
        Meaning::Load(size, address, n) => loads::load(size, address, n, control, r, memory),
        Meaning::LoadIncrement(size, m, n) => loads::load_increment(size, m, n, r, memory),
        Meaning::Store(size, m, address) => stores::store(size, m, address, control, r, memory),
        Meaning::StoreDecrement(size, m, n) => stores::store_decrement(size, m, n, r, memory),
        Meaning::Relative(op, d, n) => loads::relative(op, d, n, control, r, memory),
        Meaning::LoadControl(register, m) => {
            system::load_control(register, m, control, r);
            Flow::Next
        }
        Meaning::LoadControlLong(register, m) => {
            system::load_control_long(register, m, control, r, memory)
        }
        Meaning::StoreControl(register, n) => {
            system::store_control(register, n, control, r);
            Flow::Next
        }
        Meaning::StoreControlLong(register, n) => {
            system::store_control_long(register, n, control, r, memory)
        }
        Meaning::TasB(n) => byte_logic::tas_b(n, control, r, memory),
        _ => rewrite_pc(meaning, slot, control, r, memory),
    }
}

// The instructions that rewrite the PC: in a slot they are illegal (document 01, "One step", item 3).
#[tactic(auto, using(decoder::proofs::Rewriting::stays), unfolding(instructions::specs::Execute::attempted, instructions::specs::Execute::execute))]
fn rewrite_pc(
    meaning: Meaning,
    slot: bool,
    control: &mut Control,
    r: &mut [u32; 16],
    memory: &mut [u8],
) -> Flow
    requires { rewrites_pc meaning ≡ true }
    ensures { Attempts slot meaning control.old r.old memory.old result control.new r.new memory.new }
{
    if slot {
        return Flow::Illegal;
    }
    match meaning {
        Meaning::BranchIf(op, d) => branches::branch_if(op, d, control),
        Meaning::Branch(op, d) => branches::branch(op, d, control),
        Meaning::BranchTo(op, m) => branches::branch_to(op, m, control, r),
        Meaning::Return(op) => returns::return_by(op, control, r, memory),
        Meaning::Trapa(i) => Flow::Trap(i),
        _ => Flow::Illegal,
    }
}
