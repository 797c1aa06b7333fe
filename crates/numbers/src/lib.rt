// Registers read as signed numbers, and signed numbers put back into registers (document 000, sections 3.1 and 6.1).
#![tactic(auto)]

ghost use Rattle.std.specs.Prelude.{◌≡◌};
ghost use Rattle.numbers.specs.Numbers as Numbers;

// 2^32, the first number that a register cannot hold, and its half, from which on a register's top bit is set.
pub const REACH: u64 = 0x1_0000_0000;

pub const HALF: u32 = 0x8000_0000;

// A register's new value, and the T bit.
#[derive(Clone, Copy, Debug, PartialEq, Eq)]
pub struct WithT {
    pub value: u32,
    pub t: u32,
}

// A number of which those from half up stand for negative ones.
pub fn signed(x: u32, half: u32) -> i64
    ensures { result ≡ Numbers.signed half x }
{
    if x < half {
        x as i64
    } else {
        x as i64 - 2 * half as i64
    }
}

// The low byte and the low word of a register.
pub fn signed_byte(x: u32) -> i64
    ensures { result ≡ Numbers.signed_byte x }
{
    signed(x % 0x100, 0x80)
}

pub fn signed_word(x: u32) -> i64
    ensures { result ≡ Numbers.signed_word x }
{
    signed(x % 0x1_0000, 0x8000)
}

pub fn low_long(z: i64) -> u32
    ensures { result ≡ Numbers.low_long z }
{
    (z.cast_unsigned() % REACH) as u32
}

// Not a signed number of 32 bits.
pub fn overflows(z: i64) -> bool
    ensures { result ≡ Numbers.overflows z }
{
    i32::try_from(z).is_err()
}
