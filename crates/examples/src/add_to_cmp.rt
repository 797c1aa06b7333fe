// The examples of document 000, sections 6.3 to 6.16. PC is printed for the branches: the SLEEP at the destination leaves it 2 further.
use crate::table::After::*;
use crate::table::Before::*;
use crate::table::Code::*;
use crate::table::Register::*;
use crate::table::{Example, PLAIN};

pub const EXAMPLES: &[Example] = &[
    // 6.3 ADDC, line 1508: the low half of R0:R1 + R2:R3.
    Example {
        title: "6.3 CLRT; ADDC R3,R1",
        before: &[Set(SR, 1), Set(R1, 0x00000001), Set(R3, 0xffffffff)],
        program: &[
            Word(0x0008), // CLRT
            Word(0x313e), // ADDC R3,R1
        ],
        after: &[T, Value(R1)],
        ..PLAIN
    },
    // 6.3 ADDC, line 1510: both halves.
    Example {
        title: "6.3 CLRT; ADDC R3,R1; ADDC R2,R0",
        before: &[Set(SR, 1), Set(R1, 0x00000001), Set(R3, 0xffffffff)],
        program: &[
            Word(0x0008), // CLRT
            Word(0x313e), // ADDC R3,R1
            Word(0x302e), // ADDC R2,R0
        ],
        after: &[T, Value(R0)],
        ..PLAIN
    },
    // 6.5 AND.B, line 1603.
    Example {
        title: "6.5 AND.B #H'80,@(R0,GBR)",
        before: &[Set(GBR, 0x3000), Set(R0, 4), Store(0x3004, 0xa5000000)],
        program: &[
            Word(0xcd80), // AND.B #H'80,@(R0,GBR)
        ],
        after: &[ByteAt("@(R0,GBR)", 0x3004)],
        ..PLAIN
    },
    // 6.6 BF, line 1634.
    Example {
        title: "6.6 CLRT; BT TRGET_T; BF TRGET_F",
        before: &[Set(SR, 1)],
        program: &[
            Word(0x0008), // CLRT
            Word(0x8903), // BT TRGET_T
            Word(0x8b01), // BF TRGET_F
            Word(0x0009), // NOP
            Word(0x0009), // NOP
            Word(0x001b), // TRGET_F, H'100A: SLEEP
        ],
        after: &[T, Value(PC), Steps],
        ..PLAIN
    },
    // 6.7 BF/S, line 1678.
    Example {
        title: "6.7 CLRT; BT/S TRGET_T; NOP; BF/S TRGET_F; ADD R0,R1",
        before: &[Set(SR, 1), Set(R0, 1), Set(R1, 2)],
        program: &[
            Word(0x0008), // CLRT
            Word(0x8d04), // BT/S TRGET_T
            Word(0x0009), // NOP
            Word(0x8f01), // BF/S TRGET_F
            Word(0x310c), // ADD R0,R1
            Word(0x0009), // NOP
            Word(0x001b), // TRGET_F, H'100C: SLEEP
        ],
        after: &[T, Value(R1), Value(PC), Steps],
        ..PLAIN
    },
    // 6.8 BRA, line 1720.
    Example {
        title: "6.8 BRA TRGET; ADD R0,R1",
        before: &[Set(R0, 1), Set(R1, 2)],
        program: &[
            Word(0xa001), // BRA TRGET, H'1006
            Word(0x310c), // ADD R0,R1
            Word(0x0009), // NOP
        ],
        after: &[Value(R1), Value(PC), Steps],
        ..PLAIN
    },
    // 6.9 BRAF, line 1756, which prints BSRF_PC for BRAF_PC. The assembler puts the displacement behind the program.
    Example {
        title: "6.9 MOV.L #(TRGET-BRAF_PC),R0; BRAF R0; ADD R0,R1",
        before: &[Set(R1, 1)],
        program: &[
            Word(0xd002), // MOV.L #(TRGET-BRAF_PC),R0
            Word(0x0023), // BRAF R0
            Word(0x310c), // ADD R0,R1
            Word(0x0009), // BRAF_PC, H'1006: NOP
            Word(0x001b), // TRGET, H'1008: SLEEP
            Word(0x0009), // NOP, for the alignment
            Word(0x0000), // TRGET-BRAF_PC
            Word(0x0002),
        ],
        after: &[Value(R0), Value(R1), Value(PC), Steps],
        ..PLAIN
    },
    // 6.10 BSR, line 1796.
    Example {
        title: "6.10 BSR TRGET; MOV R3,R4; ADD R0,R1",
        before: &[Set(R1, 5), Set(R2, 0x22), Set(R3, 0x33)],
        program: &[
            Word(0xb002), // BSR TRGET
            Word(0x6433), // MOV R3,R4
            Word(0x310c), // ADD R0,R1
            Word(0x001b), // SLEEP
            Word(0x6323), // TRGET, H'1008: MOV R2,R3
            Word(0x000b), // RTS
            Word(0xe001), // MOV #1,R0
        ],
        after: &[
            Value(PR),
            Value(R4),
            Value(R3),
            Value(R0),
            Value(R1),
            Value(PC),
            Steps,
        ],
        ..PLAIN
    },
    // 6.11 BSRF, line 1835. The displacement is again behind the program.
    Example {
        title: "6.11 MOV.L #(TRGET-BSRF_PC),R0; BSRF R0; MOV R3,R4; ADD R0,R1",
        before: &[Set(R1, 5), Set(R2, 0x22), Set(R3, 0x33)],
        program: &[
            Word(0xd003), // MOV.L #(TRGET-BSRF_PC),R0
            Word(0x0003), // BSRF R0
            Word(0x6433), // MOV R3,R4
            Word(0x310c), // BSRF_PC, H'1006: ADD R0,R1
            Word(0x001b), // SLEEP
            Word(0x6323), // TRGET, H'100A: MOV R2,R3
            Word(0x000b), // RTS
            Word(0xe001), // MOV #1,R0
            Word(0x0000), // TRGET-BSRF_PC
            Word(0x0004),
        ],
        after: &[
            Value(PR),
            Value(R4),
            Value(R3),
            Value(R0),
            Value(R1),
            Value(PC),
            Steps,
        ],
        ..PLAIN
    },
    // 6.12 BT, line 1877.
    Example {
        title: "6.12 SETT; BF TRGET_F; BT TRGET_T",
        program: &[
            Word(0x0018), // SETT
            Word(0x8b03), // BF TRGET_F
            Word(0x8901), // BT TRGET_T
            Word(0x0009), // NOP
            Word(0x0009), // NOP
            Word(0x001b), // TRGET_T, H'100A: SLEEP
        ],
        after: &[T, Value(PC), Steps],
        ..PLAIN
    },
    // 6.13 BT/S, line 1917.
    Example {
        title: "6.13 SETT; BF/S TRGET_F; NOP; BT/S TRGET_T; ADD R0,R1",
        before: &[Set(R0, 1), Set(R1, 2)],
        program: &[
            Word(0x0018), // SETT
            Word(0x8f04), // BF/S TRGET_F
            Word(0x0009), // NOP
            Word(0x8d01), // BT/S TRGET_T
            Word(0x310c), // ADD R0,R1
            Word(0x0009), // NOP
            Word(0x001b), // TRGET_T, H'100C: SLEEP
        ],
        after: &[T, Value(R1), Value(PC), Steps],
        ..PLAIN
    },
    // 6.14 CLRMAC, line 1950.
    Example {
        title: "6.14 CLRMAC",
        before: &[Set(MACH, 0x12345678), Set(MACL, 0x9abcdef0)],
        program: &[
            Word(0x0028), // CLRMAC
        ],
        after: &[Value(MACH), Value(MACL)],
        ..PLAIN
    },
    // 6.14 CLRMAC, line 1951: its two MAC.W, over the tables of section 6.31.
    Example {
        title: "6.14 CLRMAC; MAC.W @R0+,@R1+; MAC.W @R0+,@R1+",
        before: &[
            Set(MACH, 0x12345678),
            Set(MACL, 0x9abcdef0),
            Set(R0, 0x3004),
            Set(R1, 0x3000),
            Store(0x3000, 0x12345678),
            Store(0x3004, 0x01234567),
        ],
        program: &[
            Word(0x0028), // CLRMAC
            Word(0x410f), // MAC.W @R0+,@R1+
            Word(0x410f), // MAC.W @R0+,@R1+
        ],
        after: &[Value(MACH), Value(MACL), Value(R0), Value(R1)],
        ..PLAIN
    },
    // 6.15 CLRT, line 1976.
    Example {
        title: "6.15 CLRT",
        before: &[Set(SR, 1)],
        program: &[
            Word(0x0008), // CLRT
        ],
        after: &[T],
        ..PLAIN
    },
    // 6.16 CMP/GE, line 2103.
    Example {
        title: "6.16 CMP/GE R0,R1",
        before: &[Set(SR, 1), Set(R0, 0x7fffffff), Set(R1, 0x80000000)],
        program: &[
            Word(0x3103), // CMP/GE R0,R1
        ],
        after: &[T],
        ..PLAIN
    },
    // 6.16 CMP/GE and CMP/HS, line 2104: the second BT branches to TRGET_T, H'100A.
    Example {
        title: "6.16 CMP/GE R0,R1; BT TRGET_T; CMP/HS R0,R1; BT TRGET_T",
        before: &[Set(R0, 0x7fffffff), Set(R1, 0x80000000)],
        program: &[
            Word(0x3103), // CMP/GE R0,R1
            Word(0x8902), // BT TRGET_T
            Word(0x3102), // CMP/HS R0,R1
            Word(0x8900), // BT TRGET_T
            Word(0x001b), // SLEEP
        ],
        after: &[T, Value(PC), Steps],
        ..PLAIN
    },
    // 6.16 CMP/STR, line 2107, with "ABCD" and "XYCZ": branches to TRGET_T, H'1006.
    Example {
        title: "6.16 CMP/STR R2,R3; BT TRGET_T",
        before: &[Set(R2, 0x41424344), Set(R3, 0x5859435a)],
        program: &[
            Word(0x232c), // CMP/STR R2,R3
            Word(0x8900), // BT TRGET_T
            Word(0x001b), // SLEEP
        ],
        after: &[T, Value(PC), Steps],
        ..PLAIN
    },
];
