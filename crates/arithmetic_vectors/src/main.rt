// Runs the examples of document 000, chapter 6, that are pure computations printed whole, and prints what they give, in its order.
#![tactic(auto)]

use Given::*;
use arithmetic::{compares, logic, sums, transfers};
use multiply::Mac;
use numbers::WithT;
use std::io;

// What an example gives.
#[derive(Clone, Copy)]
enum Given {
    Value(u32),
    ValueAndT(WithT),
    T(u32),
    MachAndMacl(Mac),
}

fn main(rt: HostRuntime) -> io::Result<()> {
    additions(&rt)?;
    compares(&rt)?;
    doubles(&rt)?;
    multiplications(&rt)?;
    rotates(&rt)?;
    subtractions(&rt)?;
    tests(&rt)
}

// Prints a line for each example.
fn print(rt: &impl Print, examples: &[(&str, Given)]) -> io::Result<()> {
    for (name, given) in examples {
        match given {
            Value(value) => println!(rt; "{name} {value:08x}")?,
            ValueAndT(WithT { value, t }) => println!(rt; "{name} {value:08x} T {t}")?,
            T(t) => println!(rt; "{name} T {t}")?,
            MachAndMacl(Mac { mach, macl }) => println!(rt;
                "{name} MACH {mach:08x} MACL {macl:08x}"
            )?,
        }
    }
    Ok(())
}

// Sections 6.2 to 6.5.
fn additions(rt: &impl Print) -> io::Result<()> {
    print(
        rt,
        &[
            ("ADD R0,R1", Value(sums::add(0x7fffffff, 1))),
            ("ADD #H'01,R2", Value(sums::add(transfers::exts_b(0x01), 0))),
            ("ADD #H'FE,R3", Value(sums::add(transfers::exts_b(0xfe), 1))),
            ("ADDC R3,R1", ValueAndT(sums::addc(0xffffffff, 1, 0))),
            ("ADDC R2,R0", ValueAndT(sums::addc(0, 0, 1))),
            ("ADDV R0,R1", ValueAndT(sums::addv(1, 0x7ffffffe))),
            ("ADDV R0,R1", ValueAndT(sums::addv(2, 0x7ffffffe))),
            ("AND R0,R1", Value(logic::and(0xaaaaaaaa, 0x55555555))),
            ("AND #H'0F,R0", Value(logic::and(0x0f, 0xffffffff))),
            ("AND.B #H'80,@(R0,GBR)", Value(logic::and(0x80, 0xa5))),
        ],
    )
}

// Section 6.16.
fn compares(rt: &impl Print) -> io::Result<()> {
    print(
        rt,
        &[
            ("CMP/GE R0,R1", T(compares::cmp_ge(0x7fffffff, 0x80000000))),
            ("CMP/HS R0,R1", T(compares::cmp_hs(0x7fffffff, 0x80000000))),
            (
                "CMP/STR R2,R3",
                T(compares::cmp_str(0x41424344, 0x5859435a)),
            ),
        ],
    )
}

// Sections 6.20 to 6.24.
fn doubles(rt: &impl Print) -> io::Result<()> {
    print(
        rt,
        &[
            (
                "DMULS.L R0,R1",
                MachAndMacl(multiply::dmuls_l(0xfffffffe, 0x5555)),
            ),
            (
                "DMULU.L R0,R1",
                MachAndMacl(multiply::dmulu_l(0xfffffffe, 0x5555)),
            ),
            ("DT R5", ValueAndT(sums::dt(4))),
            ("DT R5", ValueAndT(sums::dt(3))),
            ("DT R5", ValueAndT(sums::dt(2))),
            ("DT R5", ValueAndT(sums::dt(1))),
            ("EXTS.B R0,R1", Value(transfers::exts_b(0x80))),
            ("EXTS.W R0,R1", Value(transfers::exts_w(0x8000))),
            ("EXTU.B R0,R1", Value(transfers::extu_b(0xffffff80))),
            ("EXTU.W R0,R1", Value(transfers::extu_w(0xffff8000))),
        ],
    )
}

// Sections 6.33 to 6.45.
fn multiplications(rt: &impl Print) -> io::Result<()> {
    print(
        rt,
        &[
            ("MOV #H'80,R1", Value(transfers::exts_b(0x80))),
            ("XOR R2,R2", Value(logic::xor(0x12345678, 0x12345678))),
            ("CMP/PZ R2", T(compares::cmp_pz(0))),
            ("MOVT R0", Value(transfers::movt(compares::cmp_pz(0)))),
            ("MOVT R1", Value(transfers::movt(0))),
            ("MUL.L R0,R1", Value(multiply::mul_l(0xfffffffe, 0x5555))),
            ("MULS.W R0,R1", Value(multiply::muls_w(0xfffffffe, 0x5555))),
            ("MULU.W R0,R1", Value(multiply::mulu_w(2, 0xffffaaaa))),
            ("NEG R0,R1", Value(sums::neg(1))),
            ("NEGC R1,R1", ValueAndT(sums::negc(1, 0))),
            ("NEGC R0,R0", ValueAndT(sums::negc(0, 1))),
            ("NOT R0,R1", Value(logic::not(0xaaaaaaaa))),
            ("OR R0,R1", Value(logic::or(0xaaaa5555, 0x55550000))),
            ("OR #H'F0,R0", Value(logic::or(0xf0, 0x08))),
            ("OR.B #H'50,@(R0,GBR)", Value(logic::or(0x50, 0xa5))),
        ],
    )
}

// Sections 6.46 to 6.58.
fn rotates(rt: &impl Print) -> io::Result<()> {
    print(
        rt,
        &[
            ("ROTCL R0", ValueAndT(shifts::rotcl(0x80000000, 0))),
            ("ROTCR R0", ValueAndT(shifts::rotcr(1, 1))),
            ("ROTL R0", ValueAndT(shifts::rotl(0x80000000))),
            ("ROTR R0", ValueAndT(shifts::rotr(1))),
            ("SHAL R0", ValueAndT(shifts::shll(0x80000001))),
            ("SHAR R0", ValueAndT(shifts::shar(0x80000001))),
            ("SHLL R0", ValueAndT(shifts::shll(0x80000001))),
            ("SHLL2 R0", Value(shifts::shll2(0x12345678))),
            ("SHLL8 R0", Value(shifts::shll8(0x12345678))),
            ("SHLL16 R0", Value(shifts::shll16(0x12345678))),
            ("SHLR R0", ValueAndT(shifts::shlr(0x80000001))),
            ("SHLR2 R0", Value(shifts::shlr2(0x12345678))),
            ("SHLR8 R0", Value(shifts::shlr8(0x12345678))),
            ("SHLR16 R0", Value(shifts::shlr16(0x12345678))),
        ],
    )
}

// Sections 6.62 to 6.65.
fn subtractions(rt: &impl Print) -> io::Result<()> {
    print(
        rt,
        &[
            ("SUB R0,R1", Value(sums::sub(1, 0x80000000))),
            ("SUBC R3,R1", ValueAndT(sums::subc(1, 0, 0))),
            ("SUBC R2,R0", ValueAndT(sums::subc(0, 0, 1))),
            ("SUBV R0,R1", ValueAndT(sums::subv(2, 0x80000001))),
            ("SUBV R2,R3", ValueAndT(sums::subv(0xfffffffe, 0x7ffffffe))),
            ("SWAP.B R0,R1", Value(transfers::swap_b(0x12345678))),
            ("SWAP.W R0,R1", Value(transfers::swap_w(0x12345678))),
        ],
    )
}

// Sections 6.68 to 6.70.
fn tests(rt: &impl Print) -> io::Result<()> {
    print(
        rt,
        &[
            ("TST R0,R0", T(logic::tst(0, 0))),
            ("TST #H'80,R0", T(logic::tst(0x80, 0xffffff7f))),
            ("TST.B #H'A5,@(R0,GBR)", T(logic::tst(0xa5, 0xa5))),
            ("XOR R0,R1", Value(logic::xor(0xaaaaaaaa, 0x55555555))),
            ("XOR #H'F0,R0", Value(logic::xor(0xf0, 0xffffffff))),
            ("XOR.B #H'A5,@(R0,GBR)", Value(logic::xor(0xa5, 0xa5))),
            (
                "XTRCT R0,R1",
                Value(transfers::xtrct(0x01234567, 0x89abcdef)),
            ),
        ],
    )
}
