// The instructions that work on registers alone (document 000, chapter 6), a function for each shape.
ghost use Rattle.std.specs.Prelude.{List, ℕ};
ghost use Rattle.instructions.specs.Promises.{Performs};

use crate::results;
use arithmetic::{compares, logic, sums, transfers};
use decoder::{
    Compare, CompareZero, Divide, Immediate, ImmediateR0, Meaning, Multiply, NoOperand,
    OneRegister, TwoRegisters,
};
use divide::Bits;
use instructions::{Control, Flow};

#[tactic(auto, unfolding(instructions::specs::Execute::execute))]
pub fn no_operand(operation: NoOperand, control: &mut Control) -> Flow
    ensures { (r memory : List ℕ) → Performs (Meaning.NoOperand operation) control.old r memory result control.new r memory }
{
    match operation {
        NoOperand::Clrmac => {
            control.mach = 0;
            control.macl = 0;
            Flow::Next
        }
        NoOperand::Clrt => {
            control.set_t(0);
            Flow::Next
        }
        NoOperand::Div0u => {
            control.set_mqt(divide::div0u());
            Flow::Next
        }
        NoOperand::Nop => Flow::Next,
        NoOperand::Sett => {
            control.set_t(1);
            Flow::Next
        }
        NoOperand::Sleep => Flow::Sleep,
    }
}

pub fn two_registers(
    operation: TwoRegisters,
    m: u8,
    n: u8,
    control: &mut Control,
    r: &mut [u32; 16],
)
    ensures { (memory : List ℕ) → Performs (Meaning.TwoRegisters operation m n) control.old r.old memory Flow.Next control.new r.new memory }
{
    let from = (m % 16) as usize;
    let into = (n % 16) as usize;
    let w = results::of_two_registers(operation, r[from], r[into], control.t_bit());
    r[into] = w.value;
    control.set_t(w.t);
}

pub fn one_register(operation: OneRegister, n: u8, control: &mut Control, r: &mut [u32; 16])
    ensures { (memory : List ℕ) → Performs (Meaning.OneRegister operation n) control.old r.old memory Flow.Next control.new r.new memory }
{
    let into = (n % 16) as usize;
    let w = results::of_one_register(operation, r[into], control.t_bit());
    r[into] = w.value;
    control.set_t(w.t);
}

pub fn compare(operation: Compare, m: u8, n: u8, control: &mut Control, r: &[u32; 16])
    ensures { (memory : List ℕ) → Performs (Meaning.Compare operation m n) control.old r.now memory Flow.Next control.new r.now memory }
{
    let from = (m % 16) as usize;
    let into = (n % 16) as usize;
    control.set_t(results::of_compare(operation, r[from], r[into]));
}

pub fn compare_zero(operation: CompareZero, n: u8, control: &mut Control, r: &[u32; 16])
    ensures { (memory : List ℕ) → Performs (Meaning.CompareZero operation n) control.old r.now memory Flow.Next control.new r.now memory }
{
    let into = (n % 16) as usize;
    control.set_t(results::of_compare_zero(operation, r[into]));
}

#[tactic(auto, unfolding(instructions::specs::Execute::execute))]
pub fn divide(operation: Divide, m: u8, n: u8, control: &mut Control, r: &mut [u32; 16])
    ensures { (memory : List ℕ) → Performs (Meaning.Divide operation m n) control.old r.old memory Flow.Next control.new r.new memory }
{
    let from = (m % 16) as usize;
    let into = (n % 16) as usize;
    match operation {
        Divide::Div0s => control.set_mqt(divide::div0s(r[from], r[into])),
        Divide::Div1 => {
            let m_bit = control.m_bit();
            let d = divide::div1(r[from], r[into], m_bit, control.q_bit(), control.t_bit());
            r[into] = d.value;
            let bits = Bits {
                m: m_bit,
                q: d.q,
                t: d.t,
            };
            control.set_mqt(bits);
        }
    }
}

#[tactic(auto, unfolding(instructions::specs::Execute::execute))]
pub fn multiply(operation: Multiply, m: u8, n: u8, control: &mut Control, r: &[u32; 16])
    ensures { (memory : List ℕ) → Performs (Meaning.Multiply operation m n) control.old r.now memory Flow.Next control.new r.now memory }
{
    let from = (m % 16) as usize;
    let into = (n % 16) as usize;
    let a = r[from];
    let b = r[into];
    match operation {
        Multiply::DmulsL => {
            let p = multiply::dmuls_l(a, b);
            control.mach = p.mach;
            control.macl = p.macl;
        }
        Multiply::DmuluL => {
            let p = multiply::dmulu_l(a, b);
            control.mach = p.mach;
            control.macl = p.macl;
        }
        Multiply::MulL => control.macl = multiply::mul_l(a, b),
        Multiply::MulsW => control.macl = multiply::muls_w(a, b),
        Multiply::MuluW => control.macl = multiply::mulu_w(a, b),
    }
}

#[tactic(auto, unfolding(instructions::specs::Execute::execute))]
pub fn immediate(operation: Immediate, i: u8, n: u8, r: &mut [u32; 16])
    ensures { (c : Control) (memory : List ℕ) → Performs (Meaning.Immediate operation i n) c r.old memory Flow.Next c r.new memory }
{
    let into = (n % 16) as usize;
    let value = transfers::exts_b(i as u32);
    match operation {
        Immediate::AddImm => r[into] = sums::add(value, r[into]),
        Immediate::MovImm => r[into] = value,
    }
}

#[tactic(auto, unfolding(instructions::specs::Execute::execute))]
pub fn immediate_r0(operation: ImmediateR0, i: u8, control: &mut Control, r: &mut [u32; 16])
    ensures { (memory : List ℕ) → Performs (Meaning.ImmediateR0 operation i) control.old r.old memory Flow.Next control.new r.new memory }
{
    let b = r[0];
    match operation {
        ImmediateR0::AndImm => r[0] = logic::and(i as u32, b),
        ImmediateR0::CmpEqImm => {
            control.set_t(compares::cmp_eq(transfers::exts_b(i as u32), b));
        }
        ImmediateR0::OrImm => r[0] = logic::or(i as u32, b),
        ImmediateR0::TstImm => control.set_t(logic::tst(i as u32, b)),
        ImmediateR0::XorImm => r[0] = logic::xor(i as u32, b),
    }
}
