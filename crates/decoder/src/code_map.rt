// From a word to its meaning: nested matches on the word's four nibbles, as the code map of document 000 (Table A.51) goes.
// Each function takes the nibbles that are not told yet, and promises what the table says of them: `n` (or `second`) is the second,
// `m` (or `third`) the third, `low8` the two last as one number.
#![tactic(auto, unfolding(crate::specs::Code::among, crate::specs::Table::table))]

ghost use Rattle.std.specs.Prelude.{◌≡◌, ◌/◌, ◌%◌};
ghost use Rattle.decoder.specs.Code.{meaning, of_nibbles};

use crate::meaning::{
    Address, Branch, BranchIf, BranchTo, Compare, CompareZero, ControlRegister, Divide, Immediate,
    ImmediateByte, ImmediateR0, Meaning, Multiply, MultiplyAdd, NoOperand, OneRegister, Relative,
    Return, Size, TwoRegisters,
};

// The last nibble of a word of group 4 that is no MAC.W.
#[derive(Clone, Copy)]
struct Last {
    nibble: u8,
    ghost no_mac_w: { nibble ≡ 0xf → ⊥ },
}

// MAC.W is told here: with three operands it has another layout than the rest of its group, and the compiler keeps them apart so.
#[tactic(auto, using(crate::proofs::Digits::two_digits), unfolding(crate::specs::Code::among, crate::specs::Code::meaning, crate::specs::Table::table))]
pub fn decode(word: u16) -> Meaning
    ensures { result ≡ meaning word }
{
    let n = (word / 256 % 16) as u8;
    let m = (word / 16 % 16) as u8;
    let last = (word % 16) as u8;
    let low8 = (word % 256) as u8;
    match word / 4096 {
        0x0 => group_0(n, m, last),
        0x1 => Meaning::Store(Size::Long, m, Address::Displacement(last, n)),
        0x2 => group_2(n, m, last),
        0x3 => group_3(n, m, last),
        0x4 => {
            if last == 0xf {
                return Meaning::MultiplyAdd(MultiplyAdd::MacW, m, n);
            }
            group_4(n, m, Last { nibble: last })
        }
        0x5 => Meaning::Load(Size::Long, Address::Displacement(last, m), n),
        0x6 => group_6(n, m, last),
        0x7 => Meaning::Immediate(Immediate::AddImm, low8, n),
        0x8 => group_8(n, low8),
        0x9 => Meaning::Relative(Relative::MovW, low8, n),
        0xa => Meaning::Branch(Branch::Bra, word % 4096),
        0xb => Meaning::Branch(Branch::Bsr, word % 4096),
        0xc => group_c(n, low8),
        0xd => Meaning::Relative(Relative::MovL, low8, n),
        0xe => Meaning::Immediate(Immediate::MovImm, low8, n),
        _ => Meaning::Undefined,
    }
}

fn group_0(n: u8, m: u8, last: u8) -> Meaning
    ensures { result ≡ of_nibbles 0x0 n m last }
{
    match last {
        0x2 => group_0_2(n, m),
        0x3 => group_0_3(n, m),
        0x4 => Meaning::Store(Size::Byte, m, Address::Indexed(n)),
        0x5 => Meaning::Store(Size::Word, m, Address::Indexed(n)),
        0x6 => Meaning::Store(Size::Long, m, Address::Indexed(n)),
        0x7 => Meaning::Multiply(Multiply::MulL, m, n),
        0x8 => group_0_8(n, m),
        0x9 => group_0_9(n, m),
        0xa => group_0_a(n, m),
        0xb => group_0_b(n, m),
        0xc => Meaning::Load(Size::Byte, Address::Indexed(m), n),
        0xd => Meaning::Load(Size::Word, Address::Indexed(m), n),
        0xe => Meaning::Load(Size::Long, Address::Indexed(m), n),
        0xf => Meaning::MultiplyAdd(MultiplyAdd::MacL, m, n),
        _ => Meaning::Undefined,
    }
}

fn group_0_2(n: u8, third: u8) -> Meaning
    ensures { result ≡ of_nibbles 0x0 n third 0x2 }
{
    match third {
        0x0 => Meaning::StoreControl(ControlRegister::Sr, n),
        0x1 => Meaning::StoreControl(ControlRegister::Gbr, n),
        0x2 => Meaning::StoreControl(ControlRegister::Vbr, n),
        _ => Meaning::Undefined,
    }
}

fn group_0_3(m: u8, third: u8) -> Meaning
    ensures { result ≡ of_nibbles 0x0 m third 0x3 }
{
    match third {
        0x0 => Meaning::BranchTo(BranchTo::Bsrf, m),
        0x2 => Meaning::BranchTo(BranchTo::Braf, m),
        _ => Meaning::Undefined,
    }
}

fn group_0_8(second: u8, third: u8) -> Meaning
    ensures { result ≡ of_nibbles 0x0 second third 0x8 }
{
    if second != 0 {
        return Meaning::Undefined;
    }
    match third {
        0x0 => Meaning::NoOperand(NoOperand::Clrt),
        0x1 => Meaning::NoOperand(NoOperand::Sett),
        0x2 => Meaning::NoOperand(NoOperand::Clrmac),
        _ => Meaning::Undefined,
    }
}

fn group_0_9(n: u8, third: u8) -> Meaning
    ensures { result ≡ of_nibbles 0x0 n third 0x9 }
{
    if third == 0x2 {
        return Meaning::OneRegister(OneRegister::Movt, n);
    }
    if n != 0 {
        return Meaning::Undefined;
    }
    match third {
        0x0 => Meaning::NoOperand(NoOperand::Nop),
        0x1 => Meaning::NoOperand(NoOperand::Div0u),
        _ => Meaning::Undefined,
    }
}

fn group_0_a(n: u8, third: u8) -> Meaning
    ensures { result ≡ of_nibbles 0x0 n third 0xa }
{
    match third {
        0x0 => Meaning::StoreControl(ControlRegister::Mach, n),
        0x1 => Meaning::StoreControl(ControlRegister::Macl, n),
        0x2 => Meaning::StoreControl(ControlRegister::Pr, n),
        _ => Meaning::Undefined,
    }
}

fn group_0_b(second: u8, third: u8) -> Meaning
    ensures { result ≡ of_nibbles 0x0 second third 0xb }
{
    if second != 0 {
        return Meaning::Undefined;
    }
    match third {
        0x0 => Meaning::Return(Return::Rts),
        0x1 => Meaning::NoOperand(NoOperand::Sleep),
        0x2 => Meaning::Return(Return::Rte),
        _ => Meaning::Undefined,
    }
}

fn group_2(n: u8, m: u8, last: u8) -> Meaning
    ensures { result ≡ of_nibbles 0x2 n m last }
{
    match last {
        0x0 => Meaning::Store(Size::Byte, m, Address::Indirect(n)),
        0x1 => Meaning::Store(Size::Word, m, Address::Indirect(n)),
        0x2 => Meaning::Store(Size::Long, m, Address::Indirect(n)),
        0x4 => Meaning::StoreDecrement(Size::Byte, m, n),
        0x5 => Meaning::StoreDecrement(Size::Word, m, n),
        0x6 => Meaning::StoreDecrement(Size::Long, m, n),
        0x7 => Meaning::Divide(Divide::Div0s, m, n),
        0x8 => Meaning::Compare(Compare::Tst, m, n),
        0x9 => Meaning::TwoRegisters(TwoRegisters::And, m, n),
        0xa => Meaning::TwoRegisters(TwoRegisters::Xor, m, n),
        0xb => Meaning::TwoRegisters(TwoRegisters::Or, m, n),
        0xc => Meaning::Compare(Compare::CmpStr, m, n),
        0xd => Meaning::TwoRegisters(TwoRegisters::Xtrct, m, n),
        0xe => Meaning::Multiply(Multiply::MuluW, m, n),
        0xf => Meaning::Multiply(Multiply::MulsW, m, n),
        _ => Meaning::Undefined,
    }
}

fn group_3(n: u8, m: u8, last: u8) -> Meaning
    ensures { result ≡ of_nibbles 0x3 n m last }
{
    match last {
        0x0 => Meaning::Compare(Compare::CmpEq, m, n),
        0x2 => Meaning::Compare(Compare::CmpHs, m, n),
        0x3 => Meaning::Compare(Compare::CmpGe, m, n),
        0x4 => Meaning::Divide(Divide::Div1, m, n),
        0x5 => Meaning::Multiply(Multiply::DmuluL, m, n),
        0x6 => Meaning::Compare(Compare::CmpHi, m, n),
        0x7 => Meaning::Compare(Compare::CmpGt, m, n),
        0x8 => Meaning::TwoRegisters(TwoRegisters::Sub, m, n),
        0xa => Meaning::TwoRegisters(TwoRegisters::Subc, m, n),
        0xb => Meaning::TwoRegisters(TwoRegisters::Subv, m, n),
        0xc => Meaning::TwoRegisters(TwoRegisters::Add, m, n),
        0xd => Meaning::Multiply(Multiply::DmulsL, m, n),
        0xe => Meaning::TwoRegisters(TwoRegisters::Addc, m, n),
        0xf => Meaning::TwoRegisters(TwoRegisters::Addv, m, n),
        _ => Meaning::Undefined,
    }
}

fn group_4(n: u8, third: u8, last: Last) -> Meaning
    ensures { result ≡ of_nibbles 0x4 n third last.nibble }
{
    match third {
        0x0 => group_4_0(n, last),
        0x1 => group_4_1(n, last),
        0x2 => group_4_2(n, last),
        _ => Meaning::Undefined,
    }
}

fn group_4_0(n: u8, last: Last) -> Meaning
    ensures { result ≡ of_nibbles 0x4 n 0x0 last.nibble }
{
    match last.nibble {
        0x0 => Meaning::OneRegister(OneRegister::Shll, n),
        0x1 => Meaning::OneRegister(OneRegister::Shlr, n),
        0x2 => Meaning::StoreControlLong(ControlRegister::Mach, n),
        0x3 => Meaning::StoreControlLong(ControlRegister::Sr, n),
        0x4 => Meaning::OneRegister(OneRegister::Rotl, n),
        0x5 => Meaning::OneRegister(OneRegister::Rotr, n),
        0x6 => Meaning::LoadControlLong(ControlRegister::Mach, n),
        0x7 => Meaning::LoadControlLong(ControlRegister::Sr, n),
        0x8 => Meaning::OneRegister(OneRegister::Shll2, n),
        0x9 => Meaning::OneRegister(OneRegister::Shlr2, n),
        0xa => Meaning::LoadControl(ControlRegister::Mach, n),
        0xb => Meaning::BranchTo(BranchTo::Jsr, n),
        0xe => Meaning::LoadControl(ControlRegister::Sr, n),
        _ => Meaning::Undefined,
    }
}

fn group_4_1(n: u8, last: Last) -> Meaning
    ensures { result ≡ of_nibbles 0x4 n 0x1 last.nibble }
{
    match last.nibble {
        0x0 => Meaning::OneRegister(OneRegister::Dt, n),
        0x1 => Meaning::CompareZero(CompareZero::CmpPz, n),
        0x2 => Meaning::StoreControlLong(ControlRegister::Macl, n),
        0x3 => Meaning::StoreControlLong(ControlRegister::Gbr, n),
        0x5 => Meaning::CompareZero(CompareZero::CmpPl, n),
        0x6 => Meaning::LoadControlLong(ControlRegister::Macl, n),
        0x7 => Meaning::LoadControlLong(ControlRegister::Gbr, n),
        0x8 => Meaning::OneRegister(OneRegister::Shll8, n),
        0x9 => Meaning::OneRegister(OneRegister::Shlr8, n),
        0xa => Meaning::LoadControl(ControlRegister::Macl, n),
        0xb => Meaning::TasB(n),
        0xe => Meaning::LoadControl(ControlRegister::Gbr, n),
        _ => Meaning::Undefined,
    }
}

fn group_4_2(n: u8, last: Last) -> Meaning
    ensures { result ≡ of_nibbles 0x4 n 0x2 last.nibble }
{
    match last.nibble {
        0x0 => Meaning::OneRegister(OneRegister::Shal, n),
        0x1 => Meaning::OneRegister(OneRegister::Shar, n),
        0x2 => Meaning::StoreControlLong(ControlRegister::Pr, n),
        0x3 => Meaning::StoreControlLong(ControlRegister::Vbr, n),
        0x4 => Meaning::OneRegister(OneRegister::Rotcl, n),
        0x5 => Meaning::OneRegister(OneRegister::Rotcr, n),
        0x6 => Meaning::LoadControlLong(ControlRegister::Pr, n),
        0x7 => Meaning::LoadControlLong(ControlRegister::Vbr, n),
        0x8 => Meaning::OneRegister(OneRegister::Shll16, n),
        0x9 => Meaning::OneRegister(OneRegister::Shlr16, n),
        0xa => Meaning::LoadControl(ControlRegister::Pr, n),
        0xb => Meaning::BranchTo(BranchTo::Jmp, n),
        0xe => Meaning::LoadControl(ControlRegister::Vbr, n),
        _ => Meaning::Undefined,
    }
}

fn group_6(n: u8, m: u8, last: u8) -> Meaning
    ensures { result ≡ of_nibbles 0x6 n m last }
{
    match last {
        0x0 => Meaning::Load(Size::Byte, Address::Indirect(m), n),
        0x1 => Meaning::Load(Size::Word, Address::Indirect(m), n),
        0x2 => Meaning::Load(Size::Long, Address::Indirect(m), n),
        0x3 => Meaning::TwoRegisters(TwoRegisters::Mov, m, n),
        0x4 => Meaning::LoadIncrement(Size::Byte, m, n),
        0x5 => Meaning::LoadIncrement(Size::Word, m, n),
        0x6 => Meaning::LoadIncrement(Size::Long, m, n),
        0x7 => Meaning::TwoRegisters(TwoRegisters::Not, m, n),
        0x8 => Meaning::TwoRegisters(TwoRegisters::SwapB, m, n),
        0x9 => Meaning::TwoRegisters(TwoRegisters::SwapW, m, n),
        0xa => Meaning::TwoRegisters(TwoRegisters::Negc, m, n),
        0xb => Meaning::TwoRegisters(TwoRegisters::Neg, m, n),
        0xc => Meaning::TwoRegisters(TwoRegisters::ExtuB, m, n),
        0xd => Meaning::TwoRegisters(TwoRegisters::ExtuW, m, n),
        0xe => Meaning::TwoRegisters(TwoRegisters::ExtsB, m, n),
        0xf => Meaning::TwoRegisters(TwoRegisters::ExtsW, m, n),
        _ => Meaning::Undefined,
    }
}

fn group_8(second: u8, low8: u8) -> Meaning
    ensures { result ≡ of_nibbles 0x8 second (low8 / 16) (low8 % 16) }
{
    let register = low8 / 16;
    let low4 = low8 % 16;
    match second {
        0x0 => Meaning::Store(Size::Byte, 0, Address::Displacement(low4, register)),
        0x1 => Meaning::Store(Size::Word, 0, Address::Displacement(low4, register)),
        0x4 => Meaning::Load(Size::Byte, Address::Displacement(low4, register), 0),
        0x5 => Meaning::Load(Size::Word, Address::Displacement(low4, register), 0),
        0x8 => Meaning::ImmediateR0(ImmediateR0::CmpEqImm, low8),
        0x9 => Meaning::BranchIf(BranchIf::Bt, low8),
        0xb => Meaning::BranchIf(BranchIf::Bf, low8),
        0xd => Meaning::BranchIf(BranchIf::BtS, low8),
        0xf => Meaning::BranchIf(BranchIf::BfS, low8),
        _ => Meaning::Undefined,
    }
}

fn group_c(second: u8, low8: u8) -> Meaning
    ensures { result ≡ of_nibbles 0xc second (low8 / 16) (low8 % 16) }
{
    match second {
        0x0 => Meaning::Store(Size::Byte, 0, Address::GbrDisplacement(low8)),
        0x1 => Meaning::Store(Size::Word, 0, Address::GbrDisplacement(low8)),
        0x2 => Meaning::Store(Size::Long, 0, Address::GbrDisplacement(low8)),
        0x3 => Meaning::Trapa(low8),
        0x4 => Meaning::Load(Size::Byte, Address::GbrDisplacement(low8), 0),
        0x5 => Meaning::Load(Size::Word, Address::GbrDisplacement(low8), 0),
        0x6 => Meaning::Load(Size::Long, Address::GbrDisplacement(low8), 0),
        0x7 => Meaning::Relative(Relative::Mova, low8, 0),
        0x8 => Meaning::ImmediateR0(ImmediateR0::TstImm, low8),
        0x9 => Meaning::ImmediateR0(ImmediateR0::AndImm, low8),
        0xa => Meaning::ImmediateR0(ImmediateR0::XorImm, low8),
        0xb => Meaning::ImmediateR0(ImmediateR0::OrImm, low8),
        0xc => Meaning::ImmediateByte(ImmediateByte::TstB, low8),
        0xd => Meaning::ImmediateByte(ImmediateByte::AndB, low8),
        0xe => Meaning::ImmediateByte(ImmediateByte::XorB, low8),
        0xf => Meaning::ImmediateByte(ImmediateByte::OrB, low8),
        _ => Meaning::Undefined,
    }
}
