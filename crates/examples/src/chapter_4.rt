// The examples of document 000, section 4.1, Tables 4.1 to 4.6. Where a table leaves a value open, it is chosen here.
use crate::table::After::*;
use crate::table::Before::*;
use crate::table::Code::*;
use crate::table::Register::*;
use crate::table::{Example, PLAIN};

pub const EXAMPLES: &[Example] = &[
    // Table 4.1, line 480: the word is sign-extended, and then added.
    Example {
        title: "4.1.3 MOV.W @(disp,PC),R1; ADD R1,R0",
        before: &[Set(R0, 1)],
        program: &[
            Word(0x9101), // MOV.W @(disp,PC),R1
            Word(0x301c), // ADD R1,R0
            Word(0x001b), // SLEEP
            Word(0x1234), // .DATA.W H'1234
        ],
        after: &[Value(R1), Value(R0)],
        ..PLAIN
    },
    // Table 4.2, line 498. TRGET is H'1006.
    Example {
        title: "4.1.5 BRA TRGET; ADD R1,R0",
        before: &[Set(R0, 1), Set(R1, 2)],
        program: &[
            Word(0xa001), // BRA TRGET
            Word(0x301c), // ADD R1,R0
            Word(0x001b), // SLEEP
        ],
        after: &[Value(R0), Value(PC)],
        ..PLAIN
    },
    // Table 4.3, line 518: to TRGET0, H'1006, when R0 >= R1 ..
    Example {
        title: "4.1.7 CMP/GE R1,R0 with R0 = R1; BT TRGET0; BF TRGET1",
        before: &[Set(R0, 5), Set(R1, 5)],
        program: &[
            Word(0x3013), // CMP/GE R1,R0
            Word(0x8900), // BT TRGET0
            Word(0x8b00), // BF TRGET1
            Word(0x001b), // TRGET0: SLEEP
        ],
        after: &[T, Value(PC)],
        ..PLAIN
    },
    // .. and to TRGET1, H'1008, when R0 < R1.
    Example {
        title: "4.1.7 CMP/GE R1,R0 with R0 < R1; BT TRGET0; BF TRGET1",
        before: &[Set(R0, 0xffffffff)],
        program: &[
            Word(0x3013), // CMP/GE R1,R0
            Word(0x8900), // BT TRGET0
            Word(0x8b00), // BF TRGET1
            Word(0x001b), // TRGET0: SLEEP
        ],
        after: &[T, Value(PC)],
        ..PLAIN
    },
    // Table 4.3, line 521: to TRGET, H'1008, if R0 = 0.
    Example {
        title: "4.1.7 ADD #-1,R0; CMP/EQ #0,R0; BT TRGET",
        before: &[Set(R0, 1)],
        program: &[
            Word(0x70ff), // ADD #-1,R0
            Word(0x8800), // CMP/EQ #0,R0
            Word(0x8900), // BT TRGET
            Word(0x001b), // SLEEP
        ],
        after: &[Value(R0), T, Value(PC)],
        ..PLAIN
    },
    // Table 4.4, line 533: 8-bit immediate.
    Example {
        title: "4.1.8 MOV #H'12,R0",
        program: &[
            Word(0xe012), // MOV #H'12,R0
        ],
        after: &[Value(R0)],
        ..PLAIN
    },
    // Line 534: 16-bit immediate.
    Example {
        title: "4.1.8 MOV.W @(disp,PC),R0",
        program: &[
            Word(0x9000), // MOV.W @(disp,PC),R0
            Word(0x001b), // SLEEP
            Word(0x1234), // .DATA.W H'1234
        ],
        after: &[Value(R0)],
        ..PLAIN
    },
    // Line 537: 32-bit immediate.
    Example {
        title: "4.1.8 MOV.L @(disp,PC),R0",
        program: &[
            Word(0xd000), // MOV.L @(disp,PC),R0
            Word(0x001b), // SLEEP
            Word(0x1234), // .DATA.L H'12345678
            Word(0x5678),
        ],
        after: &[Value(R0)],
        ..PLAIN
    },
    // Table 4.5, line 551, with H'12345678 moved to H'3678.
    Example {
        title: "4.1.9 MOV.L @(disp,PC),R1; MOV.B @R1,R0",
        before: &[Store(0x3678, 0x5a000000)],
        program: &[
            Word(0xd101), // MOV.L @(disp,PC),R1
            Word(0x6010), // MOV.B @R1,R0
            Word(0x001b), // SLEEP
            Word(0x0009), // NOP, for the alignment
            Word(0x0000), // .DATA.L H'3678
            Word(0x3678),
        ],
        after: &[Value(R1), Value(R0)],
        ..PLAIN
    },
    // Table 4.6, line 564.
    Example {
        title: "4.1.10 MOV.W @(disp,PC),R0; MOV.W @(R0,R1),R2",
        before: &[Set(R1, 0x2000), Store(0x3234, 0x56780000)],
        program: &[
            Word(0x9001), // MOV.W @(disp,PC),R0
            Word(0x021d), // MOV.W @(R0,R1),R2
            Word(0x001b), // SLEEP
            Word(0x1234), // .DATA.W H'1234
        ],
        after: &[Value(R0), Value(R2)],
        ..PLAIN
    },
];
