// The examples of document 000, sections 6.32 to 6.40.
use crate::table::After::*;
use crate::table::Before::*;
use crate::table::Code::*;
use crate::table::Register::*;
use crate::table::{Example, PLAIN};

pub const EXAMPLES: &[Example] = &[
    // 6.32 MOV, line 3199.
    Example {
        title: "6.32 MOV R0,R1",
        before: &[Set(R0, 0xffffffff)],
        program: &[
            Word(0x6103), // MOV R0,R1
        ],
        after: &[Value(R1)],
        ..PLAIN
    },
    // Line 3201.
    Example {
        title: "6.32 MOV.W R0,@R1",
        before: &[Set(R0, 0xffff7f80), Set(R1, 0x3000)],
        program: &[
            Word(0x2101), // MOV.W R0,@R1
        ],
        after: &[WordAt("@R1", 0x3000)],
        ..PLAIN
    },
    // Line 3203.
    Example {
        title: "6.32 MOV.B @R0,R1",
        before: &[Set(R0, 0x3000), Store(0x3000, 0x80000000)],
        program: &[
            Word(0x6100), // MOV.B @R0,R1
        ],
        after: &[Value(R1)],
        ..PLAIN
    },
    // Line 3205.
    Example {
        title: "6.32 MOV.W R0,@-R1",
        before: &[Set(R0, 0xaaaaaaaa), Set(R1, 0x3f80)],
        program: &[
            Word(0x2105), // MOV.W R0,@-R1
        ],
        after: &[Value(R1), WordAt("@R1", 0x3f7e)],
        ..PLAIN
    },
    // Line 3207.
    Example {
        title: "6.32 MOV.L @R0+,R1",
        before: &[Set(R0, 0x3670), Store(0x3670, 0x89abcdef)],
        program: &[
            Word(0x6106), // MOV.L @R0+,R1
        ],
        after: &[Value(R0), Value(R1)],
        ..PLAIN
    },
    // Line 3209: R1 is stored, though the manual prints "R1 = @H'10000004".
    Example {
        title: "6.32 MOV.B R1,@(R0,R2)",
        before: &[Set(R1, 0x89abcdef), Set(R2, 0x00000004), Set(R0, 0x3000)],
        program: &[
            Word(0x0214), // MOV.B R1,@(R0,R2)
        ],
        after: &[ByteAt("@(R0,R2)", 0x3004)],
        ..PLAIN
    },
    // Line 3211.
    Example {
        title: "6.32 MOV.W @(R0,R2),R1",
        before: &[
            Set(R2, 0x00000004),
            Set(R0, 0x3000),
            Store(0x3004, 0x9abc0000),
        ],
        program: &[
            Word(0x012d), // MOV.W @(R0,R2),R1
        ],
        after: &[Value(R1)],
        ..PLAIN
    },
    // 6.33 MOV, immediate data, line 3273, which gives its displacements in bytes. The manual's MOV.L in the slot counts from NEXT + 2
    // and finds H'12345678; document 01's counts from the instruction's own address and finds what is at H'1014. The jump to either
    // raises an address error (vector 9), which stacks that address.
    Example {
        title: "6.33 MOV #H'80,R1 to CMP/EQ #0,R0",
        before: &[
            Set(R0, 1),
            Set(R15, 0x3800),
            Store(0x0024, 0x00003000),
            Store(0x3000, 0x001b0000),
        ],
        program: &[
            Word(0xe180), // MOV #H'80,R1
            Word(0x9204), // MOV.W IMM,R2
            Word(0x70ff), // ADD #-1,R0
            Word(0x2008), // TST R0,R0
            Word(0x0d29), // MOVT R13
            Word(0xa002), // BRA NEXT
            Word(0xd301), // MOV.L @(4,PC),R3
            Word(0x9abc), // IMM, H'100E: .data.w H'9ABC
            Word(0x1234), // .data.w H'1234
            Word(0x432b), // NEXT, H'1012: JMP @R3
            Word(0x8800), // CMP/EQ #0,R0
            Word(0x0009), // NOP, for .align 4
            Word(0x1234), // .data.l H'12345678
            Word(0x5678),
        ],
        after: &[
            Value(R1),
            Value(R2),
            Value(R13),
            Value(R3),
            LongAt("stacked PC", 0x37f8),
            Steps,
        ],
        ..PLAIN
    },
    // The same with the displacement that finds H'12345678 by document 01.
    Example {
        title: "6.33 the same with MOV.L @(8,PC),R3",
        before: &[
            Set(R0, 1),
            Set(R15, 0x3800),
            Store(0x0024, 0x00003000),
            Store(0x3000, 0x001b0000),
        ],
        program: &[
            Word(0xe180), // MOV #H'80,R1
            Word(0x9204), // MOV.W IMM,R2
            Word(0x70ff), // ADD #-1,R0
            Word(0x2008), // TST R0,R0
            Word(0x0d29), // MOVT R13
            Word(0xa002), // BRA NEXT
            Word(0xd302), // MOV.L @(8,PC),R3
            Word(0x9abc), // IMM, H'100E: .data.w H'9ABC
            Word(0x1234), // .data.w H'1234
            Word(0x432b), // NEXT, H'1012: JMP @R3
            Word(0x8800), // CMP/EQ #0,R0
            Word(0x0009), // NOP, for .align 4
            Word(0x1234), // .data.l H'12345678
            Word(0x5678),
        ],
        after: &[
            Value(R1),
            Value(R2),
            Value(R13),
            Value(R3),
            LongAt("stacked PC", 0x37f8),
            Steps,
        ],
        ..PLAIN
    },
    // 6.34 MOV, peripheral data, line 3378: R0 is the value itself.
    Example {
        title: "6.34 MOV.L @(2,GBR),R0",
        before: &[Set(GBR, 0x3000), Store(0x3008, 0x12345670)],
        program: &[
            Word(0xc602), // MOV.L @(2,GBR),R0
        ],
        after: &[Value(R0)],
        ..PLAIN
    },
    // Line 3380: the stored byte is the last of R0, not the printed H'FFFF7F80.
    Example {
        title: "6.34 MOV.B R0,@(1,GBR)",
        before: &[Set(GBR, 0x3000), Set(R0, 0xffff7f80)],
        program: &[
            Word(0xc001), // MOV.B R0,@(1,GBR)
        ],
        after: &[ByteAt("@(GBR + 1)", 0x3001)],
        ..PLAIN
    },
    // 6.35 MOV, structure data, line 3475: R1 is the value itself.
    Example {
        title: "6.35 MOV.L @(2,R0),R1",
        before: &[Set(R0, 0x3000), Store(0x3008, 0x12345670)],
        program: &[
            Word(0x5102), // MOV.L @(2,R0),R1
        ],
        after: &[Value(R1)],
        ..PLAIN
    },
    // Line 3478.
    Example {
        title: "6.35 MOV.L R0,@(H'F,R1)",
        before: &[Set(R0, 0xffff7f80), Set(R1, 0x3000)],
        program: &[
            Word(0x110f), // MOV.L R0,@(H'F,R1)
        ],
        after: &[LongAt("@(R1 + 60)", 0x303c)],
        ..PLAIN
    },
    // 6.36 MOVA, line 3508. Three steps, since the string follows at once.
    Example {
        title: "6.36 MOVA STR,R0; MOV.B @R0,R1; ADD R4,R5",
        start: 0x1006,
        before: &[Set(R4, 1), Set(R5, 2)],
        program: &[
            Word(0xc701), // MOVA STR,R0
            Word(0x6100), // MOV.B @R0,R1
            Word(0x354c), // ADD R4,R5
            Word(0x5859), // STR, H'100C: .sdata "XYZP12"
            Word(0x5a50),
            Word(0x3132),
        ],
        budget: 3,
        after: &[Value(R0), Value(R1), Value(R5), Value(PC)],
        ..PLAIN
    },
    // 6.36 MOVA, line 3514, in a slot. The manual has "Address of TRGET + 2", H'200C; document 01 counts from the instruction's own
    // address.
    Example {
        title: "6.36 BRA TRGET; MOVA @(0,PC),R0",
        start: 0x2002,
        program: &[
            Word(0xa002), // BRA TRGET
            Word(0xc700), // MOVA @(0,PC),R0
            Word(0x0009), // NOP
            Word(0x001b), // SLEEP
        ],
        after: &[Value(R0), Value(PC), Steps],
        ..PLAIN
    },
    // 6.37 MOVT, line 3540.
    Example {
        title: "6.37 XOR R2,R2; CMP/PZ R2; MOVT R0",
        before: &[Set(R2, 0x12345678)],
        program: &[
            Word(0x222a), // XOR R2,R2
            Word(0x4211), // CMP/PZ R2
            Word(0x0029), // MOVT R0
        ],
        after: &[Value(R2), T, Value(R0)],
        ..PLAIN
    },
    // 6.37 MOVT, line 3543.
    Example {
        title: "6.37 XOR R2,R2; CMP/PZ R2; MOVT R0; CLRT; MOVT R1",
        before: &[Set(R2, 0x12345678), Set(R1, 0xffffffff)],
        program: &[
            Word(0x222a), // XOR R2,R2
            Word(0x4211), // CMP/PZ R2
            Word(0x0029), // MOVT R0
            Word(0x0008), // CLRT
            Word(0x0129), // MOVT R1
        ],
        after: &[T, Value(R1)],
        ..PLAIN
    },
    // 6.38 MUL.L, line 3568. R0 is printed H'FFFFFFFF; the printed result is that of H'FFFFFFFE.
    Example {
        title: "6.38 MUL.L R0,R1; STS MACL,R0",
        before: &[Set(R0, 0xfffffffe), Set(R1, 0x00005555)],
        program: &[
            Word(0x0107), // MUL.L R0,R1
            Word(0x001a), // STS MACL,R0
        ],
        after: &[Value(MACL), Value(R0)],
        ..PLAIN
    },
    // 6.39 MULS.W, line 3595.
    Example {
        title: "6.39 MULS.W R0,R1; STS MACL,R0",
        before: &[Set(R0, 0xfffffffe), Set(R1, 0x00005555)],
        program: &[
            Word(0x210f), // MULS.W R0,R1
            Word(0x001a), // STS MACL,R0
        ],
        after: &[Value(MACL), Value(R0)],
        ..PLAIN
    },
    // 6.40 MULU.W, line 3623.
    Example {
        title: "6.40 MULU.W R0,R1; STS MACL,R0",
        before: &[Set(R0, 0x00000002), Set(R1, 0xffffaaaa)],
        program: &[
            Word(0x210e), // MULU.W R0,R1
            Word(0x001a), // STS MACL,R0
        ],
        after: &[Value(MACL), Value(R0)],
        ..PLAIN
    },
];
