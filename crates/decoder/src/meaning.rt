// What an instruction word means: document 000, Table 5.9, the instructions grouped by the shape of their effect.
// Operands stand in the order of the assembler text. Register numbers, immediates and displacements are the code's own
// bits: what extends or scales them belongs to the instruction's operation.

#[derive(Clone, Copy)]
pub enum Meaning {
    // The code table has no such word.
    Undefined,
    NoOperand(NoOperand),
    // Rn, and T where the manual says so, from Rn and T.
    OneRegister(OneRegister, u8),
    // T from Rn.
    CompareZero(CompareZero, u8),
    // Rn, and T where the manual says so, from Rm, Rn and T.
    TwoRegisters(TwoRegisters, u8, u8),
    // T from Rm and Rn.
    Compare(Compare, u8, u8),
    // M, Q and T, and Rn for DIV1, from Rm, Rn, M, Q and T.
    Divide(Divide, u8, u8),
    // MACL from Rm and Rn, and MACH for DMULS.L and DMULU.L.
    Multiply(Multiply, u8, u8),
    // MACH and MACL from themselves and from memory at Rm and Rn, which both step on.
    MultiplyAdd(MultiplyAdd, u8, u8),
    // #imm,Rn
    Immediate(Immediate, u8, u8),
    // #imm,R0
    ImmediateR0(ImmediateR0, u8),
    // #imm,@(R0,GBR)
    ImmediateByte(ImmediateByte, u8),
    // MOV from memory into Rn.
    Load(Size, Address, u8),
    // MOV @Rm+,Rn
    LoadIncrement(Size, u8, u8),
    // MOV of Rm into memory.
    Store(Size, u8, Address),
    // MOV Rm,@-Rn
    StoreDecrement(Size, u8, u8),
    // @(disp,PC),Rn
    Relative(Relative, u8, u8),
    // LDC and LDS: from Rm.
    LoadControl(ControlRegister, u8),
    // LDC.L and LDS.L: from @Rm+.
    LoadControlLong(ControlRegister, u8),
    // STC and STS: into Rn.
    StoreControl(ControlRegister, u8),
    // STC.L and STS.L: into @-Rn.
    StoreControlLong(ControlRegister, u8),
    // TAS.B @Rn
    TasB(u8),
    // To A + 4 + 2 x disp, by T.
    BranchIf(BranchIf, u8),
    // To A + 4 + 2 x disp.
    Branch(Branch, u16),
    // By Rm.
    BranchTo(BranchTo, u8),
    Return(Return),
    // TRAPA #imm
    Trapa(u8),
}

#[derive(Clone, Copy)]
pub enum NoOperand {
    Clrmac,
    Clrt,
    Div0u,
    Nop,
    Sett,
    Sleep,
}

#[derive(Clone, Copy)]
pub enum OneRegister {
    Dt,
    Movt,
    Rotcl,
    Rotcr,
    Rotl,
    Rotr,
    Shal,
    Shar,
    Shll,
    Shll2,
    Shll8,
    Shll16,
    Shlr,
    Shlr2,
    Shlr8,
    Shlr16,
}

#[derive(Clone, Copy)]
pub enum CompareZero {
    CmpPl,
    CmpPz,
}

#[derive(Clone, Copy)]
pub enum TwoRegisters {
    Add,
    Addc,
    Addv,
    And,
    ExtsB,
    ExtsW,
    ExtuB,
    ExtuW,
    Mov,
    Neg,
    Negc,
    Not,
    Or,
    Sub,
    Subc,
    Subv,
    SwapB,
    SwapW,
    Xor,
    Xtrct,
}

#[derive(Clone, Copy)]
pub enum Compare {
    CmpEq,
    CmpGe,
    CmpGt,
    CmpHi,
    CmpHs,
    CmpStr,
    Tst,
}

#[derive(Clone, Copy)]
pub enum Divide {
    Div0s,
    Div1,
}

#[derive(Clone, Copy)]
pub enum Multiply {
    DmulsL,
    DmuluL,
    MulL,
    MulsW,
    MuluW,
}

#[derive(Clone, Copy)]
pub enum MultiplyAdd {
    MacL,
    MacW,
}

#[derive(Clone, Copy)]
pub enum Immediate {
    AddImm,
    MovImm,
}

#[derive(Clone, Copy)]
pub enum ImmediateR0 {
    AndImm,
    CmpEqImm,
    OrImm,
    TstImm,
    XorImm,
}

#[derive(Clone, Copy)]
pub enum ImmediateByte {
    AndB,
    OrB,
    TstB,
    XorB,
}

// The size of a memory operand: .B, .W, .L.
#[derive(Clone, Copy)]
pub enum Size {
    Byte,
    Word,
    Long,
}

// The addressing modes that loads and stores share (section 4.2).
#[derive(Clone, Copy)]
pub enum Address {
    // @Rn
    Indirect(u8),
    // @(R0,Rn)
    Indexed(u8),
    // @(disp,Rn)
    Displacement(u8, u8),
    // @(disp,GBR)
    GbrDisplacement(u8),
}

#[derive(Clone, Copy)]
pub enum Relative {
    MovW,
    MovL,
    Mova,
}

// The control registers (section 2.2) and system registers (section 2.3) that LDC, LDS, STC and STS move.
#[derive(Clone, Copy)]
pub enum ControlRegister {
    Gbr,
    Sr,
    Vbr,
    Mach,
    Macl,
    Pr,
}

#[derive(Clone, Copy)]
pub enum BranchIf {
    Bf,
    BfS,
    Bt,
    BtS,
}

#[derive(Clone, Copy)]
pub enum Branch {
    Bra,
    Bsr,
}

#[derive(Clone, Copy)]
pub enum BranchTo {
    Braf,
    Bsrf,
    Jmp,
    Jsr,
}

#[derive(Clone, Copy)]
pub enum Return {
    Rte,
    Rts,
}
