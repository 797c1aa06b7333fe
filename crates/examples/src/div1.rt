// The four division sequences of document 000, section 6.19. The manual leaves the operands open; they are chosen here.
use crate::table::After::*;
use crate::table::Before::*;
use crate::table::Code::*;
use crate::table::Register::*;
use crate::table::{Example, PLAIN};

pub const EXAMPLES: &[Example] = &[
    // Example 1, line 2246: R1 (32 bits) / R0 (16 bits) = R1 (16 bits), unsigned. Of R1 the last word is shown.
    Example {
        title: "6.19 Example 1, H'12345678 / H'5678",
        before: &[Set(R1, 0x12345678), Set(R0, 0x5678)],
        program: &[
            Word(0x4028), // SHLL16 R0
            Word(0x2008), // TST R0,R0
            Word(0x8915), // BT ZERO_DIV
            Word(0x3102), // CMP/HS R0,R1
            Word(0x8914), // BT OVER_DIV
            Word(0x0019), // DIV0U
            Repeat(16, &[0x3104]), // DIV1 R0,R1
            Word(0x4124), // ROTCL R1
            Word(0x621d), // EXTU.W R1,R2
            Word(0x001b), // SLEEP
            Word(0x001b), // ZERO_DIV, H'1032: SLEEP
        ],
        after: &[LastWord(R1), Value(R2), Steps],
        ..PLAIN
    },
    // Example 1, zero division.
    Example {
        title: "6.19 Example 1, H'12345678 / 0",
        before: &[Set(R1, 0x12345678)],
        program: &[
            Word(0x4028), // SHLL16 R0
            Word(0x2008), // TST R0,R0
            Word(0x8915), // BT ZERO_DIV
            Word(0x3102), // CMP/HS R0,R1
            Word(0x8914), // BT OVER_DIV
            Word(0x0019), // DIV0U
            Repeat(16, &[0x3104]), // DIV1 R0,R1
            Word(0x4124), // ROTCL R1
            Word(0x621d), // EXTU.W R1,R2
            Word(0x001b), // SLEEP
            Word(0x001b), // ZERO_DIV, H'1032: SLEEP
        ],
        after: &[Value(PC), Steps],
        ..PLAIN
    },
    // Example 1, overflow: OVER_DIV is H'1034.
    Example {
        title: "6.19 Example 1, H'12345678 / H'1234",
        before: &[Set(R1, 0x12345678), Set(R0, 0x1234)],
        program: &[
            Word(0x4028), // SHLL16 R0
            Word(0x2008), // TST R0,R0
            Word(0x8915), // BT ZERO_DIV
            Word(0x3102), // CMP/HS R0,R1
            Word(0x8914), // BT OVER_DIV
            Word(0x0019), // DIV0U
            Repeat(16, &[0x3104]), // DIV1 R0,R1
            Word(0x4124), // ROTCL R1
            Word(0x621d), // EXTU.W R1,R2
            Word(0x001b), // SLEEP
            Word(0x001b), // ZERO_DIV, H'1032: SLEEP
        ],
        after: &[Value(PC), Steps],
        ..PLAIN
    },
    // Example 2, line 2262: R1:R2 (64 bits) / R0 (32 bits) = R2 (32 bits), unsigned.
    Example {
        title: "6.19 Example 2, H'123456789ABCDEF0 / H'87654321",
        before: &[
            Set(R1, 0x12345678),
            Set(R2, 0x9abcdef0),
            Set(R0, 0x87654321),
        ],
        program: &[
            Word(0x2008), // TST R0,R0
            Word(0x8944), // BT ZERO_DIV
            Word(0x3102), // CMP/HS R0,R1
            Word(0x8943), // BT OVER_DIV
            Word(0x0019), // DIV0U
            Repeat(32, &[0x4224, 0x3104]), // ROTCL R2; DIV1 R0,R1
            Word(0x4224), // ROTCL R2
            Word(0x001b), // SLEEP
            Word(0x001b), // ZERO_DIV, H'108E: SLEEP
        ],
        after: &[Value(R2), Steps],
        ..PLAIN
    },
    // Example 2, zero division.
    Example {
        title: "6.19 Example 2, H'123456789ABCDEF0 / 0",
        before: &[Set(R1, 0x12345678), Set(R2, 0x9abcdef0)],
        program: &[
            Word(0x2008), // TST R0,R0
            Word(0x8944), // BT ZERO_DIV
            Word(0x3102), // CMP/HS R0,R1
            Word(0x8943), // BT OVER_DIV
            Word(0x0019), // DIV0U
            Repeat(32, &[0x4224, 0x3104]), // ROTCL R2; DIV1 R0,R1
            Word(0x4224), // ROTCL R2
            Word(0x001b), // SLEEP
            Word(0x001b), // ZERO_DIV, H'108E: SLEEP
        ],
        after: &[Value(PC), Steps],
        ..PLAIN
    },
    // Example 2, overflow: OVER_DIV is H'1090.
    Example {
        title: "6.19 Example 2, H'123456789ABCDEF0 / H'12345678",
        before: &[
            Set(R1, 0x12345678),
            Set(R2, 0x9abcdef0),
            Set(R0, 0x12345678),
        ],
        program: &[
            Word(0x2008), // TST R0,R0
            Word(0x8944), // BT ZERO_DIV
            Word(0x3102), // CMP/HS R0,R1
            Word(0x8943), // BT OVER_DIV
            Word(0x0019), // DIV0U
            Repeat(32, &[0x4224, 0x3104]), // ROTCL R2; DIV1 R0,R1
            Word(0x4224), // ROTCL R2
            Word(0x001b), // SLEEP
            Word(0x001b), // ZERO_DIV, H'108E: SLEEP
        ],
        after: &[Value(PC), Steps],
        ..PLAIN
    },
    // Example 3, line 2279: R1 (16 bits) / R0 (16 bits) = R1 (16 bits), signed; -1000 / 7.
    Example {
        title: "6.19 Example 3, -1000 / 7",
        before: &[Set(R1, 0xfffffc18), Set(R0, 0x00000007)],
        program: &[
            Word(0x4028), // SHLL16 R0
            Word(0x611f), // EXTS.W R1,R1
            Word(0x222a), // XOR R2,R2
            Word(0x6313), // MOV R1,R3
            Word(0x4324), // ROTCL R3
            Word(0x312a), // SUBC R2,R1
            Word(0x2107), // DIV0S R0,R1
            Repeat(16, &[0x3104]), // DIV1 R0,R1
            Word(0x611f), // EXTS.W R1,R1
            Word(0x4124), // ROTCL R1
            Word(0x312e), // ADDC R2,R1
            Word(0x611f), // EXTS.W R1,R1
        ],
        after: &[Value(R1), Steps],
        ..PLAIN
    },
    // Example 3, 1000 / -7.
    Example {
        title: "6.19 Example 3, 1000 / -7",
        before: &[Set(R1, 0x000003e8), Set(R0, 0xfffffff9)],
        program: &[
            Word(0x4028), // SHLL16 R0
            Word(0x611f), // EXTS.W R1,R1
            Word(0x222a), // XOR R2,R2
            Word(0x6313), // MOV R1,R3
            Word(0x4324), // ROTCL R3
            Word(0x312a), // SUBC R2,R1
            Word(0x2107), // DIV0S R0,R1
            Repeat(16, &[0x3104]), // DIV1 R0,R1
            Word(0x611f), // EXTS.W R1,R1
            Word(0x4124), // ROTCL R1
            Word(0x312e), // ADDC R2,R1
            Word(0x611f), // EXTS.W R1,R1
        ],
        after: &[Value(R1), Steps],
        ..PLAIN
    },
    // Example 4, line 2299: R2 (32 bits) / R0 (32 bits) = R2 (32 bits), signed; -100000000 / 12345.
    Example {
        title: "6.19 Example 4, -100000000 / 12345",
        before: &[Set(R2, 0xfa0a1f00), Set(R0, 0x00003039)],
        program: &[
            Word(0x6323), // MOV R2,R3
            Word(0x4324), // ROTCL R3
            Word(0x311a), // SUBC R1,R1
            Word(0x233a), // XOR R3,R3
            Word(0x323a), // SUBC R3,R2
            Word(0x2107), // DIV0S R0,R1
            Repeat(32, &[0x4224, 0x3104]), // ROTCL R2; DIV1 R0,R1
            Word(0x4224), // ROTCL R2
            Word(0x323e), // ADDC R3,R2
        ],
        after: &[Value(R2), Steps],
        ..PLAIN
    },
    // Example 4, -100000000 / -12345.
    Example {
        title: "6.19 Example 4, -100000000 / -12345",
        before: &[Set(R2, 0xfa0a1f00), Set(R0, 0xffffcfc7)],
        program: &[
            Word(0x6323), // MOV R2,R3
            Word(0x4324), // ROTCL R3
            Word(0x311a), // SUBC R1,R1
            Word(0x233a), // XOR R3,R3
            Word(0x323a), // SUBC R3,R2
            Word(0x2107), // DIV0S R0,R1
            Repeat(32, &[0x4224, 0x3104]), // ROTCL R2; DIV1 R0,R1
            Word(0x4224), // ROTCL R2
            Word(0x323e), // ADDC R3,R2
        ],
        after: &[Value(R2), Steps],
        ..PLAIN
    },
];
