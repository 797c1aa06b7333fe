// The examples of document 000, sections 6.20 to 6.31.
use crate::table::After::*;
use crate::table::Before::*;
use crate::table::Code::*;
use crate::table::Register::*;
use crate::table::{Example, PLAIN};

pub const EXAMPLES: &[Example] = &[
    // 6.20 DMULS.L, line 2381: the top.
    Example {
        title: "6.20 DMULS.L R0,R1; STS MACH,R0",
        before: &[Set(R0, 0xfffffffe), Set(R1, 0x00005555)],
        program: &[
            Word(0x310d), // DMULS.L R0,R1
            Word(0x000a), // STS MACH,R0
        ],
        after: &[Value(MACH), Value(MACL), Value(R0)],
        ..PLAIN
    },
    // 6.20 DMULS.L, line 2384: the bottom.
    Example {
        title: "6.20 DMULS.L R0,R1; STS MACH,R0; STS MACL,R0",
        before: &[Set(R0, 0xfffffffe), Set(R1, 0x00005555)],
        program: &[
            Word(0x310d), // DMULS.L R0,R1
            Word(0x000a), // STS MACH,R0
            Word(0x001a), // STS MACL,R0
        ],
        after: &[Value(R0)],
        ..PLAIN
    },
    // 6.21 DMULU.L, line 2435: the top. R0 is printed H'FFFFFFFF; the printed result is that of H'FFFFFFFE.
    Example {
        title: "6.21 DMULU.L R0,R1; STS MACH,R0",
        before: &[Set(R0, 0xfffffffe), Set(R1, 0x00005555)],
        program: &[
            Word(0x3105), // DMULU.L R0,R1
            Word(0x000a), // STS MACH,R0
        ],
        after: &[Value(MACH), Value(MACL), Value(R0)],
        ..PLAIN
    },
    // 6.21 DMULU.L, line 2438: the bottom.
    Example {
        title: "6.21 DMULU.L R0,R1; STS MACH,R0; STS MACL,R0",
        before: &[Set(R0, 0xfffffffe), Set(R1, 0x00005555)],
        program: &[
            Word(0x3105), // DMULU.L R0,R1
            Word(0x000a), // STS MACH,R0
            Word(0x001a), // STS MACL,R0
        ],
        after: &[Value(R0)],
        ..PLAIN
    },
    // 6.22 DT, line 2464: loops 4 times, each adding R0.
    Example {
        title: "6.22 MOV #4,R5; ADD R0,R1; DT R5; BF LOOP",
        before: &[Set(R0, 3)],
        program: &[
            Word(0xe504), // MOV #4,R5
            Word(0x310c), // LOOP, H'1002: ADD R0,R1
            Word(0x4510), // DT R5
            Word(0x8bfc), // BF LOOP
        ],
        after: &[Value(R5), T, Value(R1), Steps],
        ..PLAIN
    },
    // 6.25 JMP, line 2577.
    Example {
        title: "6.25 MOV.L JMP_TABLE,R0; JMP @R0; MOV R0,R1; ADD #1,R1",
        program: &[
            Word(0xd001), // MOV.L JMP_TABLE,R0
            Word(0x402b), // JMP @R0
            Word(0x6103), // MOV R0,R1
            Word(0x0009), // NOP, for .align 4
            Word(0x0000), // JMP_TABLE, H'1008: .data.l TRGET
            Word(0x100e),
            Word(0x001b), // SLEEP
            Word(0x7101), // TRGET, H'100E: ADD #1,R1
        ],
        after: &[Value(R0), Value(R1), Value(PC), Steps],
        ..PLAIN
    },
    // 6.26 JSR, line 2616.
    Example {
        title: "6.26 MOV.L JSR_TABLE,R0; JSR @R0; XOR R1,R1; ADD R0,R1",
        before: &[Set(R1, 5), Set(R2, 0x22)],
        program: &[
            Word(0xd002), // MOV.L JSR_TABLE,R0
            Word(0x400b), // JSR @R0
            Word(0x211a), // XOR R1,R1
            Word(0x310c), // ADD R0,R1
            Word(0x001b), // SLEEP
            Word(0x0009), // NOP, for .align 4
            Word(0x0000), // JSR_TABLE, H'100C: .data.l TRGET
            Word(0x1010),
            Word(0x0009), // TRGET, H'1010: NOP
            Word(0x6323), // MOV R2,R3
            Word(0x000b), // RTS
            Word(0xe146), // MOV #70,R1
        ],
        after: &[Value(PR), Value(R3), Value(R0), Value(R1), Value(PC), Steps],
        ..PLAIN
    },
    // 6.27 LDC, line 2700.
    Example {
        title: "6.27 LDC R0,SR",
        before: &[Set(R0, 0xffffffff)],
        program: &[
            Word(0x400e), // LDC R0,SR
        ],
        after: &[Value(SR)],
        ..PLAIN
    },
    // 6.27 LDC.L, line 2702.
    Example {
        title: "6.27 LDC.L @R15+,GBR",
        before: &[Set(R15, 0x3000), Store(0x3000, 0x89abcdef)],
        program: &[
            Word(0x4f17), // LDC.L @R15+,GBR
        ],
        after: &[Value(R15), Value(GBR)],
        ..PLAIN
    },
    // 6.28 LDS, line 2787.
    Example {
        title: "6.28 LDS R0,PR",
        before: &[Set(R0, 0x12345678)],
        program: &[
            Word(0x402a), // LDS R0,PR
        ],
        after: &[Value(PR)],
        ..PLAIN
    },
    // 6.28 LDS.L, line 2789.
    Example {
        title: "6.28 LDS.L @R15+,MACL",
        before: &[Set(R15, 0x3000), Store(0x3000, 0x89abcdef)],
        program: &[
            Word(0x4f16), // LDS.L @R15+,MACL
        ],
        after: &[Value(R15), Value(MACL)],
        ..PLAIN
    },
    // 6.29 MAC.L, line 2894: the table addresses.
    Example {
        title: "6.29 MOVA TBLM,R0; MOV R0,R1; MOVA TBLN,R0",
        program: &[
            Word(0xc703), // MOVA TBLM,R0
            Word(0x6103), // MOV R0,R1
            Word(0xc704), // MOVA TBLN,R0
        ],
        after: &[Value(R1), Value(R0)],
        ..PLAIN
    },
    // 6.29 MAC.L, line 2897.
    Example {
        title: "6.29 CLRMAC; MAC.L @R0+,@R1+; MAC.L @R0+,@R1+; STS MACL,R0",
        before: &[Set(MACH, 0x12345678), Set(MACL, 0x9abcdef0)],
        program: &[
            Word(0xc703), // MOVA TBLM,R0
            Word(0x6103), // MOV R0,R1
            Word(0xc704), // MOVA TBLN,R0
            Word(0x0028), // CLRMAC
            Word(0x010f), // MAC.L @R0+,@R1+
            Word(0x010f), // MAC.L @R0+,@R1+
            Word(0x001a), // STS MACL,R0
            Word(0x001b), // SLEEP
            Word(0x1234), // TBLM, H'1010: .data.l H'1234ABCD
            Word(0xabcd),
            Word(0x5678), // .data.l H'5678EF01
            Word(0xef01),
            Word(0x0123), // TBLN, H'1018: .data.l H'0123ABCD
            Word(0xabcd),
            Word(0x4567), // .data.l H'4567DEF0
            Word(0xdef0),
        ],
        after: &[Value(MACH), Value(MACL), Value(R0), Value(R1)],
        ..PLAIN
    },
    // 6.31 MAC.W, line 3003: the table addresses.
    Example {
        title: "6.31 MOVA TBLM,R0; MOV R0,R1; MOVA TBLN,R0",
        program: &[
            Word(0xc703), // MOVA TBLM,R0
            Word(0x6103), // MOV R0,R1
            Word(0xc703), // MOVA TBLN,R0
        ],
        after: &[Value(R1), Value(R0)],
        ..PLAIN
    },
    // 6.31 MAC.W, line 3006.
    Example {
        title: "6.31 CLRMAC; MAC.W @R0+,@R1+; MAC.W @R0+,@R1+; STS MACL,R0",
        before: &[Set(MACH, 0x12345678), Set(MACL, 0x9abcdef0)],
        program: &[
            Word(0xc703), // MOVA TBLM,R0
            Word(0x6103), // MOV R0,R1
            Word(0xc703), // MOVA TBLN,R0
            Word(0x0028), // CLRMAC
            Word(0x410f), // MAC.W @R0+,@R1+
            Word(0x410f), // MAC.W @R0+,@R1+
            Word(0x001a), // STS MACL,R0
            Word(0x001b), // SLEEP
            Word(0x1234), // TBLM, H'1010: .data.w H'1234
            Word(0x5678), // .data.w H'5678
            Word(0x0123), // TBLN, H'1014: .data.w H'0123
            Word(0x4567), // .data.w H'4567
        ],
        after: &[Value(MACH), Value(MACL), Value(R0), Value(R1)],
        ..PLAIN
    },
];
