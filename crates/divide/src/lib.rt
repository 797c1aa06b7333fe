// The divide steps: document 000, sections 6.17 to 6.19, with document 01, "Instructions with corners", for DIV1.
#![tactic(auto)]

ghost use Rattle.std.specs.Prelude.{◌≡◌};
ghost use Rattle.divide.specs.Divide as Divide;

// M, Q and T.
#[derive(Clone, Copy, Debug, PartialEq, Eq)]
pub struct Bits {
    pub m: u32,
    pub q: u32,
    pub t: u32,
}

// Rn's new value, Q and T.
#[derive(Clone, Copy, Debug, PartialEq, Eq)]
pub struct Divided {
    pub value: u32,
    pub q: u32,
    pub t: u32,
}

pub fn div0s(m: u32, n: u32) -> Bits
    ensures { result ≡ Divide.div0s m n }
{
    Bits {
        m: m >> 31,
        q: n >> 31,
        t: (m >> 31 != n >> 31) as u32,
    }
}

pub fn div0u() -> Bits
    ensures { result ≡ Divide.div0u }
{
    Bits { m: 0, q: 0, t: 0 }
}

// 6.19 DIV1 Rm,Rn, branch by branch as on its page; true is the page's 1. By document 01 Rm is its value before the instruction, also where
// Rm and Rn are one register, which the page's R[m] would read shifted.
pub fn div1(m: u32, n: u32, m_bit: u32, q: u32, t: u32) -> Divided
    ensures { result ≡ Divide.div1 m n m_bit q t }
{
    let m_is_1 = m_bit == 1;
    // For bits this is `q == 1`. Document 01 asks whether the old Q equals M, and the promise holds for numbers that are no bits, too.
    let old_q = if m_is_1 { q == m_bit } else { q != m_bit };
    let mut q = n >> 31;
    let shifted = (n << 1).wrapping_add(t); // document 01: "T added"; of a bit, the page's |=
    let value: u32;
    match old_q {
        false => match m_is_1 {
            false => {
                value = shifted.wrapping_sub(m); // shifted: the page's tmp0
                let borrow = (value > shifted) as u32; // borrow, and carry below: its tmp1
                q = if q == 0 { borrow } else { (borrow == 0) as u32 };
            }
            true => {
                value = shifted.wrapping_add(m);
                let carry = (value < shifted) as u32;
                q = if q == 0 { (carry == 0) as u32 } else { carry };
            }
        },
        true => match m_is_1 {
            false => {
                value = shifted.wrapping_add(m);
                let carry = (value < shifted) as u32;
                q = if q == 0 { carry } else { (carry == 0) as u32 };
            }
            true => {
                value = shifted.wrapping_sub(m);
                let borrow = (value > shifted) as u32;
                q = if q == 0 { (borrow == 0) as u32 } else { borrow };
            }
        },
    }
    Divided {
        value,
        q,
        t: (q == m_bit) as u32,
    }
}
