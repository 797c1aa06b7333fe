// The row number of an instruction: the place of its row in Table 5.9, counted from 0. An undefined word has none.
#![tactic(auto)]

ghost use Rattle.std.specs.Prelude.{◌≡◌};
ghost use Rattle.rows.specs.RowNumber.{row_number};

use decoder::{
    Address, Branch, BranchIf, BranchTo, Compare, CompareZero, ControlRegister, Divide, Immediate,
    ImmediateByte, ImmediateR0, Meaning, Multiply, MultiplyAdd, NoOperand, OneRegister, Relative,
    Return, Size, TwoRegisters,
};

pub fn row_number(meaning: Meaning) -> Option<u8>
    ensures { result ≡ row_number meaning }
{
    let row = match meaning {
        Meaning::Undefined => return None,
        Meaning::NoOperand(operation) => no_operand(operation),
        Meaning::OneRegister(operation, _) => one_register(operation),
        Meaning::CompareZero(operation, _) => compare_zero(operation),
        Meaning::TwoRegisters(operation, _, _) => two_registers(operation),
        Meaning::Compare(operation, _, _) => compare(operation),
        Meaning::Divide(operation, _, _) => divide(operation),
        Meaning::Multiply(operation, _, _) => multiply(operation),
        Meaning::MultiplyAdd(operation, _, _) => multiply_add(operation),
        Meaning::Immediate(operation, _, _) => immediate(operation),
        Meaning::ImmediateR0(operation, _) => immediate_r0(operation),
        Meaning::ImmediateByte(operation, _) => immediate_byte(operation),
        Meaning::Load(size, address, _) => load(size, address),
        Meaning::LoadIncrement(operation, _, _) => load_increment(operation),
        Meaning::Store(size, _, address) => store(size, address),
        Meaning::StoreDecrement(operation, _, _) => store_decrement(operation),
        Meaning::Relative(operation, _, _) => relative(operation),
        Meaning::LoadControl(operation, _) => load_control(operation),
        Meaning::LoadControlLong(operation, _) => load_control_long(operation),
        Meaning::StoreControl(operation, _) => store_control(operation),
        Meaning::StoreControlLong(operation, _) => store_control_long(operation),
        Meaning::TasB(_) => 133,
        Meaning::BranchIf(operation, _) => branch_if(operation),
        Meaning::Branch(operation, _) => branch(operation),
        Meaning::BranchTo(operation, _) => branch_to(operation),
        Meaning::Return(operation) => return_from(operation),
        Meaning::Trapa(_) => 134,
    };
    Some(row)
}

fn no_operand(operation: NoOperand) -> u8
    ensures { Some result ≡ row_number (Meaning.NoOperand operation) }
{
    match operation {
        NoOperand::Clrmac => 15,
        NoOperand::Clrt => 16,
        NoOperand::Div0u => 27,
        NoOperand::Nop => 93,
        NoOperand::Sett => 104,
        NoOperand::Sleep => 115,
    }
}

fn one_register(operation: OneRegister) -> u8
    ensures { Some result ≡ row_number (Meaning.OneRegister operation 0) }
{
    match operation {
        OneRegister::Dt => 31,
        OneRegister::Movt => 87,
        OneRegister::Rotcl => 98,
        OneRegister::Rotcr => 99,
        OneRegister::Rotl => 100,
        OneRegister::Rotr => 101,
        OneRegister::Shal => 105,
        OneRegister::Shar => 106,
        OneRegister::Shll => 107,
        OneRegister::Shll2 => 108,
        OneRegister::Shll8 => 109,
        OneRegister::Shll16 => 110,
        OneRegister::Shlr => 111,
        OneRegister::Shlr2 => 112,
        OneRegister::Shlr8 => 113,
        OneRegister::Shlr16 => 114,
    }
}

fn compare_zero(operation: CompareZero) -> u8
    ensures { Some result ≡ row_number (Meaning.CompareZero operation 0) }
{
    match operation {
        CompareZero::CmpPl => 23,
        CompareZero::CmpPz => 24,
    }
}

fn two_registers(operation: TwoRegisters) -> u8
    ensures { Some result ≡ row_number (Meaning.TwoRegisters operation 0 0) }
{
    match operation {
        TwoRegisters::Add => 1,
        TwoRegisters::Addc => 2,
        TwoRegisters::Addv => 3,
        TwoRegisters::And => 5,
        TwoRegisters::ExtsB => 32,
        TwoRegisters::ExtsW => 33,
        TwoRegisters::ExtuB => 34,
        TwoRegisters::ExtuW => 35,
        TwoRegisters::Mov => 53,
        TwoRegisters::Neg => 91,
        TwoRegisters::Negc => 92,
        TwoRegisters::Not => 94,
        TwoRegisters::Or => 96,
        TwoRegisters::Sub => 128,
        TwoRegisters::Subc => 129,
        TwoRegisters::Subv => 130,
        TwoRegisters::SwapB => 131,
        TwoRegisters::SwapW => 132,
        TwoRegisters::Xor => 139,
        TwoRegisters::Xtrct => 141,
    }
}

fn compare(operation: Compare) -> u8
    ensures { Some result ≡ row_number (Meaning.Compare operation 0 0) }
{
    match operation {
        Compare::CmpEq => 18,
        Compare::CmpGe => 19,
        Compare::CmpGt => 20,
        Compare::CmpHi => 21,
        Compare::CmpHs => 22,
        Compare::CmpStr => 25,
        Compare::Tst => 136,
    }
}

fn divide(operation: Divide) -> u8
    ensures { Some result ≡ row_number (Meaning.Divide operation 0 0) }
{
    match operation {
        Divide::Div0s => 26,
        Divide::Div1 => 28,
    }
}

fn multiply(operation: Multiply) -> u8
    ensures { Some result ≡ row_number (Meaning.Multiply operation 0 0) }
{
    match operation {
        Multiply::DmulsL => 29,
        Multiply::DmuluL => 30,
        Multiply::MulL => 88,
        Multiply::MulsW => 89,
        Multiply::MuluW => 90,
    }
}

fn multiply_add(operation: MultiplyAdd) -> u8
    ensures { Some result ≡ row_number (Meaning.MultiplyAdd operation 0 0) }
{
    match operation {
        MultiplyAdd::MacL => 50,
        MultiplyAdd::MacW => 51,
    }
}

fn immediate(operation: Immediate) -> u8
    ensures { Some result ≡ row_number (Meaning.Immediate operation 0 0) }
{
    match operation {
        Immediate::AddImm => 0,
        Immediate::MovImm => 52,
    }
}

fn immediate_r0(operation: ImmediateR0) -> u8
    ensures { Some result ≡ row_number (Meaning.ImmediateR0 operation 0) }
{
    match operation {
        ImmediateR0::AndImm => 4,
        ImmediateR0::CmpEqImm => 17,
        ImmediateR0::OrImm => 95,
        ImmediateR0::TstImm => 135,
        ImmediateR0::XorImm => 138,
    }
}

fn immediate_byte(operation: ImmediateByte) -> u8
    ensures { Some result ≡ row_number (Meaning.ImmediateByte operation 0) }
{
    match operation {
        ImmediateByte::AndB => 6,
        ImmediateByte::OrB => 97,
        ImmediateByte::TstB => 137,
        ImmediateByte::XorB => 140,
    }
}

fn load_increment(operation: Size) -> u8
    ensures { Some result ≡ row_number (Meaning.LoadIncrement operation 0 0) }
{
    match operation {
        Size::Byte => 57,
        Size::Word => 79,
        Size::Long => 68,
    }
}

fn store_decrement(operation: Size) -> u8
    ensures { Some result ≡ row_number (Meaning.StoreDecrement operation 0 0) }
{
    match operation {
        Size::Byte => 62,
        Size::Word => 84,
        Size::Long => 73,
    }
}

fn relative(operation: Relative) -> u8
    ensures { Some result ≡ row_number (Meaning.Relative operation 0 0) }
{
    match operation {
        Relative::MovW => 76,
        Relative::MovL => 65,
        Relative::Mova => 86,
    }
}

fn load_control(operation: ControlRegister) -> u8
    ensures { Some result ≡ row_number (Meaning.LoadControl operation 0) }
{
    match operation {
        ControlRegister::Gbr => 38,
        ControlRegister::Sr => 39,
        ControlRegister::Vbr => 40,
        ControlRegister::Mach => 44,
        ControlRegister::Macl => 45,
        ControlRegister::Pr => 46,
    }
}

fn load_control_long(operation: ControlRegister) -> u8
    ensures { Some result ≡ row_number (Meaning.LoadControlLong operation 0) }
{
    match operation {
        ControlRegister::Gbr => 41,
        ControlRegister::Sr => 42,
        ControlRegister::Vbr => 43,
        ControlRegister::Mach => 47,
        ControlRegister::Macl => 48,
        ControlRegister::Pr => 49,
    }
}

fn store_control(operation: ControlRegister) -> u8
    ensures { Some result ≡ row_number (Meaning.StoreControl operation 0) }
{
    match operation {
        ControlRegister::Gbr => 116,
        ControlRegister::Sr => 117,
        ControlRegister::Vbr => 118,
        ControlRegister::Mach => 122,
        ControlRegister::Macl => 123,
        ControlRegister::Pr => 124,
    }
}

fn store_control_long(operation: ControlRegister) -> u8
    ensures { Some result ≡ row_number (Meaning.StoreControlLong operation 0) }
{
    match operation {
        ControlRegister::Gbr => 119,
        ControlRegister::Sr => 120,
        ControlRegister::Vbr => 121,
        ControlRegister::Mach => 125,
        ControlRegister::Macl => 126,
        ControlRegister::Pr => 127,
    }
}

fn branch_if(operation: BranchIf) -> u8
    ensures { Some result ≡ row_number (Meaning.BranchIf operation 0) }
{
    match operation {
        BranchIf::Bf => 7,
        BranchIf::BfS => 8,
        BranchIf::Bt => 13,
        BranchIf::BtS => 14,
    }
}

fn branch(operation: Branch) -> u8
    ensures { Some result ≡ row_number (Meaning.Branch operation 0) }
{
    match operation {
        Branch::Bra => 9,
        Branch::Bsr => 11,
    }
}

fn branch_to(operation: BranchTo) -> u8
    ensures { Some result ≡ row_number (Meaning.BranchTo operation 0) }
{
    match operation {
        BranchTo::Braf => 10,
        BranchTo::Bsrf => 12,
        BranchTo::Jmp => 36,
        BranchTo::Jsr => 37,
    }
}

fn return_from(operation: Return) -> u8
    ensures { Some result ≡ row_number (Meaning.Return operation) }
{
    match operation {
        Return::Rte => 102,
        Return::Rts => 103,
    }
}

fn load(size: Size, address: Address) -> u8
    ensures { Some result ≡ row_number (Meaning.Load size address 0) }
{
    match address {
        Address::Indirect(_) => match size {
            Size::Byte => 58,
            Size::Word => 80,
            Size::Long => 69,
        },
        Address::Indexed(_) => match size {
            Size::Byte => 56,
            Size::Word => 78,
            Size::Long => 67,
        },
        Address::Displacement(_, _) => match size {
            Size::Byte => 55,
            Size::Word => 77,
            Size::Long => 66,
        },
        Address::GbrDisplacement(_) => match size {
            Size::Byte => 54,
            Size::Word => 75,
            Size::Long => 64,
        },
    }
}

fn store(size: Size, address: Address) -> u8
    ensures { Some result ≡ row_number (Meaning.Store size 0 address) }
{
    match address {
        Address::Indirect(_) => match size {
            Size::Byte => 63,
            Size::Word => 85,
            Size::Long => 74,
        },
        Address::Indexed(_) => match size {
            Size::Byte => 61,
            Size::Word => 83,
            Size::Long => 72,
        },
        Address::Displacement(_, _) => match size {
            Size::Byte => 60,
            Size::Word => 82,
            Size::Long => 71,
        },
        Address::GbrDisplacement(_) => match size {
            Size::Byte => 59,
            Size::Word => 81,
            Size::Long => 70,
        },
    }
}
