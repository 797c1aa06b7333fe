// The examples of document 000, sections 6.42 to 6.70.
use crate::table::After::*;
use crate::table::Before::*;
use crate::table::Code::*;
use crate::table::Register::*;
use crate::table::{Example, PLAIN};

pub const EXAMPLES: &[Example] = &[
    // 6.42 NEGC, line 3681: the low half of R0:R1.
    Example {
        title: "6.42 CLRT; NEGC R1,R1",
        before: &[Set(SR, 1), Set(R1, 0x00000001)],
        program: &[
            Word(0x0008), // CLRT
            Word(0x611a), // NEGC R1,R1
        ],
        after: &[Value(R1), T],
        ..PLAIN
    },
    // 6.42 NEGC, line 3683: both halves.
    Example {
        title: "6.42 CLRT; NEGC R1,R1; NEGC R0,R0",
        before: &[Set(SR, 1), Set(R1, 0x00000001)],
        program: &[
            Word(0x0008), // CLRT
            Word(0x611a), // NEGC R1,R1
            Word(0x600a), // NEGC R0,R0
        ],
        after: &[Value(R0), T],
        ..PLAIN
    },
    // 6.43 NOP, line 3705.
    Example {
        title: "6.43 NOP",
        program: &[
            Word(0x0009), // NOP
        ],
        after: &[Value(PC), Steps],
        ..PLAIN
    },
    // 6.45 OR.B, line 3778.
    Example {
        title: "6.45 OR.B #H'50,@(R0,GBR)",
        before: &[Set(GBR, 0x3000), Set(R0, 4), Store(0x3004, 0xa5000000)],
        program: &[
            Word(0xcf50), // OR.B #H'50,@(R0,GBR)
        ],
        after: &[ByteAt("@(R0,GBR)", 0x3004)],
        ..PLAIN
    },
    // 6.50 RTE, line 3952, to the original routine at H'2000. All bits of the stacked SR are set.
    Example {
        title: "6.50 RTE; ADD #8,R14",
        before: &[
            Set(R15, 0x37f8),
            Store(0x37f8, 0x00002000),
            Store(0x37fc, 0xffffffff),
            Store(0x2000, 0x001b0000),
        ],
        program: &[
            Word(0x002b), // RTE
            Word(0x7e08), // ADD #8,R14
        ],
        after: &[Value(R14), Value(R15), Value(SR), Value(PC), Steps],
        ..PLAIN
    },
    // 6.51 RTS, line 3986.
    Example {
        title: "6.51 MOV.L TABLE,R3; JSR @R3; NOP; ADD R0,R1",
        before: &[Set(R1, 5)],
        program: &[
            Word(0xd302), // MOV.L TABLE,R3
            Word(0x430b), // JSR @R3
            Word(0x0009), // NOP
            Word(0x310c), // ADD R0,R1
            Word(0x001b), // SLEEP
            Word(0x0009), // NOP, for the alignment
            Word(0x0000), // TABLE, H'100C: .data.l TRGET
            Word(0x1010),
            Word(0x6013), // TRGET, H'1010: MOV R1,R0
            Word(0x000b), // RTS
            Word(0xe00c), // MOV #12,R0
        ],
        after: &[Value(PR), Value(R3), Value(R0), Value(R1), Value(PC), Steps],
        ..PLAIN
    },
    // 6.52 SETT, line 4020.
    Example {
        title: "6.52 SETT",
        program: &[
            Word(0x0018), // SETT
        ],
        after: &[T],
        ..PLAIN
    },
    // 6.59 SLEEP, line 4278.
    Example {
        title: "6.59 SLEEP",
        program: &[
            Word(0x001b), // SLEEP
        ],
        after: &[Asleep, Value(PC), Steps],
        ..PLAIN
    },
    // 6.60 STC, line 4350.
    Example {
        title: "6.60 STC SR,R0",
        before: &[Set(R0, 0xffffffff)],
        program: &[
            Word(0x0002), // STC SR,R0
        ],
        after: &[Value(R0)],
        ..PLAIN
    },
    // 6.60 STC.L, line 4352.
    Example {
        title: "6.60 STC.L GBR,@-R15",
        before: &[Set(R15, 0x3004), Set(GBR, 0x89abcdef)],
        program: &[
            Word(0x4f13), // STC.L GBR,@-R15
        ],
        after: &[Value(R15), LongAt("@R15", 0x3000)],
        ..PLAIN
    },
    // 6.61 STS, line 4441.
    Example {
        title: "6.61 STS MACH,R0",
        before: &[Set(R0, 0xffffffff)],
        program: &[
            Word(0x000a), // STS MACH,R0
        ],
        after: &[Value(R0)],
        ..PLAIN
    },
    // 6.61 STS.L, line 4443.
    Example {
        title: "6.61 STS.L PR,@-R15",
        before: &[Set(R15, 0x3004), Set(PR, 0x89abcdef)],
        program: &[
            Word(0x4f22), // STS.L PR,@-R15
        ],
        after: &[Value(R15), LongAt("@R15", 0x3000)],
        ..PLAIN
    },
    // 6.63 SUBC, line 4501: the low half of R0:R1 - R2:R3.
    Example {
        title: "6.63 CLRT; SUBC R3,R1",
        before: &[Set(SR, 1), Set(R3, 0x00000001)],
        program: &[
            Word(0x0008), // CLRT
            Word(0x313a), // SUBC R3,R1
        ],
        after: &[T, Value(R1)],
        ..PLAIN
    },
    // 6.63 SUBC, line 4503: both halves.
    Example {
        title: "6.63 CLRT; SUBC R3,R1; SUBC R2,R0",
        before: &[Set(SR, 1), Set(R3, 0x00000001)],
        program: &[
            Word(0x0008), // CLRT
            Word(0x313a), // SUBC R3,R1
            Word(0x302a), // SUBC R2,R0
        ],
        after: &[T, Value(R0)],
        ..PLAIN
    },
    // 6.66 TAS.B, line 4624: the data is 0, and the loop ends at once.
    Example {
        title: "6.66 TAS.B @R7; BF _LOOP with 0 at 1000",
        start: 0x1100,
        before: &[Set(R7, 0x1000)],
        program: &[
            Word(0x471b), // _LOOP: TAS.B @R7
            Word(0x8bfd), // BF _LOOP
        ],
        after: &[T, ByteAt("@R7", 0x1000), Asleep, Steps],
        ..PLAIN
    },
    // 6.66 TAS.B: the data is not 0, and it loops on.
    Example {
        title: "6.66 TAS.B @R7; BF _LOOP with 1 at 1000",
        start: 0x1100,
        before: &[Set(R7, 0x1000), Store(0x1000, 0x01000000)],
        program: &[
            Word(0x471b), // _LOOP: TAS.B @R7
            Word(0x8bfd), // BF _LOOP
        ],
        after: &[T, ByteAt("@R7", 0x1000), Asleep, Steps],
        ..PLAIN
    },
    // 6.67 TRAPA, line 4657: one step, to the routine at H'3000.
    Example {
        title: "6.67 TRAPA #H'20, at the routine",
        before: &[
            Set(VBR, 0x2000),
            Store(0x2080, 0x00003000),
            Set(R15, 0x3800),
            Set(SR, 0xf0),
        ],
        program: &[
            Word(0xc320), // TRAPA #H'20
        ],
        budget: 1,
        after: &[
            Value(R15),
            LongAt("stacked PC", 0x37f8),
            LongAt("stacked SR", 0x37fc),
            Value(PC),
        ],
        ..PLAIN
    },
    // 6.67 TRAPA, with the routine of line 4660: XOR R0,R0; RTE; NOP.
    Example {
        title: "6.67 TRAPA #H'20; TST #0,R0",
        before: &[
            Set(VBR, 0x2000),
            Store(0x2080, 0x00003000),
            Set(R15, 0x3800),
            Set(SR, 0xf0),
            Set(R0, 5),
            Store(0x3000, 0x200a002b),
            Store(0x3004, 0x00090000),
        ],
        program: &[
            Word(0xc320), // TRAPA #H'20
            Word(0xc800), // TST #0,R0
        ],
        after: &[Value(R15), Value(R0), T, Value(PC), Steps],
        ..PLAIN
    },
    // 6.68 TST.B, line 4721.
    Example {
        title: "6.68 TST.B #H'A5,@(R0,GBR)",
        before: &[
            Set(SR, 1),
            Set(GBR, 0x3000),
            Set(R0, 4),
            Store(0x3004, 0xa5000000),
        ],
        program: &[
            Word(0xcca5), // TST.B #H'A5,@(R0,GBR)
        ],
        after: &[T],
        ..PLAIN
    },
    // 6.69 XOR.B, line 4770.
    Example {
        title: "6.69 XOR.B #H'A5,@(R0,GBR)",
        before: &[Set(GBR, 0x3000), Set(R0, 4), Store(0x3004, 0xa5000000)],
        program: &[
            Word(0xcea5), // XOR.B #H'A5,@(R0,GBR)
        ],
        after: &[ByteAt("@(R0,GBR)", 0x3004)],
        ..PLAIN
    },
    // 6.70 XTRCT, line 4802.
    Example {
        title: "6.70 XTRCT R0,R1",
        before: &[Set(R0, 0x01234567), Set(R1, 0x89abcdef)],
        program: &[
            Word(0x210d), // XTRCT R0,R1
        ],
        after: &[Value(R1)],
        ..PLAIN
    },
];
