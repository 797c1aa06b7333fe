// What the instructions on general registers compute (document 000, chapter 6): a value for Rn, and T. An instruction that has nothing
// to say of T keeps it.
ghost use Rattle.std.specs.Prelude.{◌≡◌};
ghost use Rattle.instructions.specs.Promises.{Gives, Tells, keeping};

use arithmetic::{compares, logic, sums, transfers};
use decoder::{Compare, CompareZero, Meaning, OneRegister, TwoRegisters};
use numbers::WithT;

// From Rm, Rn and T.
#[tactic(auto, unfolding(instructions::specs::Execute::execute))]
pub fn of_two_registers(operation: TwoRegisters, a: u32, b: u32, t: u32) -> WithT
    ensures { Gives (λ m n. Meaning.TwoRegisters operation m n) a b t result }
{
    match operation {
        TwoRegisters::Add => kept(sums::add(a, b), t),
        TwoRegisters::Addc => sums::addc(a, b, t),
        TwoRegisters::Addv => sums::addv(a, b),
        TwoRegisters::And => kept(logic::and(a, b), t),
        TwoRegisters::ExtsB => kept(transfers::exts_b(a), t),
        TwoRegisters::ExtsW => kept(transfers::exts_w(a), t),
        TwoRegisters::ExtuB => kept(transfers::extu_b(a), t),
        TwoRegisters::ExtuW => kept(transfers::extu_w(a), t),
        TwoRegisters::Mov => kept(a, t),
        TwoRegisters::Neg => kept(sums::neg(a), t),
        TwoRegisters::Negc => sums::negc(a, t),
        TwoRegisters::Not => kept(logic::not(a), t),
        TwoRegisters::Or => kept(logic::or(a, b), t),
        TwoRegisters::Sub => kept(sums::sub(a, b), t),
        TwoRegisters::Subc => sums::subc(a, b, t),
        TwoRegisters::Subv => sums::subv(a, b),
        TwoRegisters::SwapB => kept(transfers::swap_b(a), t),
        TwoRegisters::SwapW => kept(transfers::swap_w(a), t),
        TwoRegisters::Xor => kept(logic::xor(a, b), t),
        TwoRegisters::Xtrct => kept(transfers::xtrct(a, b), t),
    }
}

// From Rn and T. The instruction names no Rm: Rn stands for it in the promise.
#[tactic(auto, unfolding(instructions::specs::Execute::execute))]
pub fn of_one_register(operation: OneRegister, b: u32, t: u32) -> WithT
    ensures { Gives (λ m n. Meaning.OneRegister operation n) b b t result }
{
    match operation {
        OneRegister::Dt => sums::dt(b),
        OneRegister::Movt => kept(transfers::movt(t), t),
        OneRegister::Rotcl => shifts::rotcl(b, t),
        OneRegister::Rotcr => shifts::rotcr(b, t),
        OneRegister::Rotl => shifts::rotl(b),
        OneRegister::Rotr => shifts::rotr(b),
        OneRegister::Shal => shifts::shll(b),
        OneRegister::Shar => shifts::shar(b),
        OneRegister::Shll => shifts::shll(b),
        OneRegister::Shll2 => kept(shifts::shll2(b), t),
        OneRegister::Shll8 => kept(shifts::shll8(b), t),
        OneRegister::Shll16 => kept(shifts::shll16(b), t),
        OneRegister::Shlr => shifts::shlr(b),
        OneRegister::Shlr2 => kept(shifts::shlr2(b), t),
        OneRegister::Shlr8 => kept(shifts::shlr8(b), t),
        OneRegister::Shlr16 => kept(shifts::shlr16(b), t),
    }
}

// T, from Rm and Rn.
#[tactic(auto, unfolding(instructions::specs::Execute::execute))]
pub fn of_compare(operation: Compare, a: u32, b: u32) -> u32
    ensures { Tells (λ m n. Meaning.Compare operation m n) a b result }
{
    match operation {
        Compare::CmpEq => compares::cmp_eq(a, b),
        Compare::CmpGe => compares::cmp_ge(a, b),
        Compare::CmpGt => compares::cmp_gt(a, b),
        Compare::CmpHi => compares::cmp_hi(a, b),
        Compare::CmpHs => compares::cmp_hs(a, b),
        Compare::CmpStr => compares::cmp_str(a, b),
        Compare::Tst => logic::tst(a, b),
    }
}

// T, from Rn, which stands for Rm too.
#[tactic(auto, unfolding(instructions::specs::Execute::execute))]
pub fn of_compare_zero(operation: CompareZero, b: u32) -> u32
    ensures { Tells (λ m n. Meaning.CompareZero operation n) b b result }
{
    match operation {
        CompareZero::CmpPl => compares::cmp_pl(b),
        CompareZero::CmpPz => compares::cmp_pz(b),
    }
}

fn kept(value: u32, t: u32) -> WithT
    ensures { result ≡ keeping value t }
{
    WithT { value, t }
}
