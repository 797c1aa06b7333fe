// Shifts and rotates: document 000, sections 6.46 to 6.49 and 6.53 to 6.58.
#![tactic(auto)]

ghost use Rattle.std.specs.Prelude.{◌≡◌};
ghost use Rattle.shifts.specs.Shifts as Shifts;

use numbers::WithT;

pub fn rotcl(n: u32, t: u32) -> WithT
    ensures { result ≡ Shifts.rotcl n t }
{
    WithT {
        value: (n << 1).wrapping_add(t),
        t: n >> 31,
    }
}

pub fn rotcr(n: u32, t: u32) -> WithT
    ensures { result ≡ Shifts.rotcr n t }
{
    WithT {
        value: (n >> 1).wrapping_add(t << 31),
        t: n % 2,
    }
}

#[tactic(auto, using(crate::proofs::Rotations::up))]
pub fn rotl(n: u32) -> WithT
    ensures { result ≡ Shifts.rotl n }
{
    WithT {
        value: n.rotate_left(1),
        t: n >> 31,
    }
}

#[tactic(auto, using(crate::proofs::Rotations::down))]
pub fn rotr(n: u32) -> WithT
    ensures { result ≡ Shifts.rotr n }
{
    WithT {
        value: n.rotate_right(1),
        t: n % 2,
    }
}

// SHAL and SHLL.
pub fn shll(n: u32) -> WithT
    ensures { result ≡ Shifts.shll n }
{
    WithT {
        value: n << 1,
        t: n >> 31,
    }
}

pub fn shar(n: u32) -> WithT
    ensures { result ≡ Shifts.shar n }
{
    WithT {
        value: (n.cast_signed() >> 1).cast_unsigned(),
        t: n % 2,
    }
}

pub fn shlr(n: u32) -> WithT
    ensures { result ≡ Shifts.shlr n }
{
    WithT {
        value: n >> 1,
        t: n % 2,
    }
}

pub fn shll2(n: u32) -> u32
    ensures { result ≡ Shifts.shll2 n }
{
    n << 2
}

pub fn shll8(n: u32) -> u32
    ensures { result ≡ Shifts.shll8 n }
{
    n << 8
}

pub fn shll16(n: u32) -> u32
    ensures { result ≡ Shifts.shll16 n }
{
    n << 16
}

pub fn shlr2(n: u32) -> u32
    ensures { result ≡ Shifts.shlr2 n }
{
    n >> 2
}

pub fn shlr8(n: u32) -> u32
    ensures { result ≡ Shifts.shlr8 n }
{
    n >> 8
}

pub fn shlr16(n: u32) -> u32
    ensures { result ≡ Shifts.shlr16 n }
{
    n >> 16
}
