// The examples of the notes in document 000, section 6.1: illegal instructions. The vectors are document 01's, 4 and 6, the stack is below
// H'3800, and the routine at H'3000 is a SLEEP.
use crate::table::After::*;
use crate::table::Before::*;
use crate::table::Code::*;
use crate::table::Register::*;
use crate::table::{Example, PLAIN};

pub const EXAMPLES: &[Example] = &[
    // Note 2, line 1418: a general illegal instruction. Its own address is stacked.
    Example {
        title: "6.1 H'FFFF",
        before: &[
            Set(R15, 0x3800),
            Set(SR, 0xf0),
            Store(0x0010, 0x00003000),
            Store(0x3000, 0x001b0000),
        ],
        program: &[
            Word(0xffff), // .data.w H'FFFF
        ],
        after: &[
            Value(PC),
            Value(R15),
            LongAt("stacked PC", 0x37f8),
            LongAt("stacked SR", 0x37fc),
        ],
        ..PLAIN
    },
    // Note 2, line 1420: illegal in the SH-1 only. The operands are those of section 6.21.
    Example {
        title: "6.1 H'3105",
        before: &[Set(R0, 0xfffffffe), Set(R1, 0x00005555)],
        program: &[
            Word(0x3105), // DMULU.L R0,R1
        ],
        after: &[Value(MACH), Value(MACL)],
        ..PLAIN
    },
    // Note 3, line 1428: an illegal slot. The target, Label at H'1006, is stacked.
    Example {
        title: "6.1 BRA Label; .data.w H'FFFF",
        before: &[
            Set(R15, 0x3800),
            Set(SR, 0xf0),
            Store(0x0018, 0x00003000),
            Store(0x3000, 0x001b0000),
        ],
        program: &[
            Word(0xa001), // BRA Label
            Word(0xffff), // .data.w H'FFFF
            Word(0x001b), // SLEEP
        ],
        after: &[
            Value(PC),
            Value(R15),
            LongAt("stacked PC", 0x37f8),
            LongAt("stacked SR", 0x37fc),
        ],
        ..PLAIN
    },
    // Note 3, line 1435: an illegal slot. RTE has taken PC and SR off the stack, and its target, H'2000, is stacked.
    Example {
        title: "6.1 RTE; BT/S Label",
        before: &[
            Set(R15, 0x37f8),
            Store(0x37f8, 0x00002000),
            Store(0x37fc, 0x000000f0),
            Store(0x0018, 0x00003000),
            Store(0x3000, 0x001b0000),
        ],
        program: &[
            Word(0x002b), // RTE
            Word(0x8d00), // BT/S Label
        ],
        after: &[
            Value(PC),
            Value(R15),
            LongAt("stacked PC", 0x37f8),
            LongAt("stacked SR", 0x37fc),
        ],
        ..PLAIN
    },
];
