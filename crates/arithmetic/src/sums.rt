// Sums and differences of registers: document 000, sections 6.2 to 6.4, 6.22, 6.41, 6.42 and 6.62 to 6.64.
ghost use Rattle.std.specs.Prelude.{◌≡◌};
ghost use Rattle.arithmetic.specs.Sums as Sums;

use numbers::{REACH, WithT};

pub fn add(m: u32, n: u32) -> u32
    ensures { result ≡ Sums.add m n }
{
    n.wrapping_add(m)
}

pub fn addc(m: u32, n: u32, t: u32) -> WithT
    ensures { result ≡ Sums.addc m n t }
{
    let sum = n as u64 + m as u64 + t as u64;
    WithT {
        value: n.wrapping_add(m).wrapping_add(t),
        t: (sum >= REACH) as u32,
    }
}

pub fn addv(m: u32, n: u32) -> WithT
    ensures { result ≡ Sums.addv m n }
{
    let sum = n.cast_signed() as i64 + m.cast_signed() as i64;
    WithT {
        value: n.wrapping_add(m),
        t: numbers::overflows(sum) as u32,
    }
}

pub fn dt(n: u32) -> WithT
    ensures { result ≡ Sums.dt n }
{
    let value = n.wrapping_sub(1);
    WithT {
        value,
        t: (value == 0) as u32,
    }
}

pub fn neg(m: u32) -> u32
    ensures { result ≡ Sums.neg m }
{
    m.wrapping_neg()
}

pub fn negc(m: u32, t: u32) -> WithT
    ensures { result ≡ Sums.negc m t }
{
    subc(m, 0, t)
}

pub fn sub(m: u32, n: u32) -> u32
    ensures { result ≡ Sums.sub m n }
{
    n.wrapping_sub(m)
}

pub fn subc(m: u32, n: u32, t: u32) -> WithT
    ensures { result ≡ Sums.subc m n t }
{
    let less = m as u64 + t as u64;
    WithT {
        value: n.wrapping_sub(m).wrapping_sub(t),
        t: ((n as u64) < less) as u32,
    }
}

pub fn subv(m: u32, n: u32) -> WithT
    ensures { result ≡ Sums.subv m n }
{
    let difference = n.cast_signed() as i64 - m.cast_signed() as i64;
    WithT {
        value: n.wrapping_sub(m),
        t: numbers::overflows(difference) as u32,
    }
}
