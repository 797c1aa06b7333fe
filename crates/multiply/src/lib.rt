// Multiplications, and multiplications that add to MACH and MACL: document 000, sections 6.20, 6.21, 6.29, 6.31 and 6.38 to 6.40.
#![tactic(auto)]

ghost use Rattle.std.specs.Prelude.{◌≡◌, ◌+◌, ◌%◌, ◌^◌, ◌<◌};
ghost use Rattle.std.specs.Int.Signed.{mag};
ghost use Rattle.numbers.specs.Numbers.{signed};
ghost use Rattle.multiply.specs.Multiply as Multiply;

use numbers::REACH;

#[derive(Clone, Copy, Debug, PartialEq, Eq)]
pub struct Mac {
    pub mach: u32,
    pub macl: u32,
}

impl From<u64> for Mac {
    ghost from_gives = { λ x a. a ≡ Multiply.split x };

    fn from(x: u64) -> Mac {
        Mac {
            mach: (x / REACH) as u32,
            macl: (x % REACH) as u32,
        }
    }
}

impl From<Mac> for u64 {
    ghost from_gives = { λ a x. x ≡ Multiply.joined a };

    fn from(a: Mac) -> u64 {
        a.mach as u64 * REACH + a.macl as u64
    }
}

pub fn dmuls_l(m: u32, n: u32) -> Mac
    ensures { result ≡ Multiply.dmuls_l m n }
{
    Mac::from(product_of_longs(m, n).cast_unsigned())
}

pub fn dmulu_l(m: u32, n: u32) -> Mac
    ensures { result ≡ Multiply.dmulu_l m n }
{
    Mac::from(n as u64 * m as u64)
}

pub fn mul_l(m: u32, n: u32) -> u32
    ensures { result ≡ Multiply.mul_l m n }
{
    n.wrapping_mul(m)
}

pub fn muls_w(m: u32, n: u32) -> u32
    ensures { result ≡ Multiply.muls_w m n }
{
    numbers::low_long(product_of_words(m, n))
}

pub fn mulu_w(m: u32, n: u32) -> u32
    ensures { result ≡ Multiply.mulu_w m n }
{
    n % 0x1_0000 * (m % 0x1_0000)
}

pub fn mac_l(a: Mac, s: u32, m: u32, n: u32) -> Mac
    ensures { result ≡ Multiply.mac_l a s m n }
{
    let product = product_of_longs(m, n);
    if s == 1 {
        mac_l_held(a, product)
    } else {
        summed(a, product)
    }
}

pub fn mac_w(a: Mac, s: u32, m: u32, n: u32) -> Mac
    ensures { result ≡ Multiply.mac_w a s m n }
{
    let product = product_of_words(m, n);
    if s == 1 {
        mac_w_held(a, product)
    } else {
        summed(a, product)
    }
}

fn mac_l_held(a: Mac, product: i64) -> Mac
    requires { mag product < 2 ^ 62 + 1 }
    ensures { result ≡ Multiply.mac_l_held a product }
{
    let sum = signed_48(a) + product;
    let held = sum.clamp(-0x8000_0000_0000, 0x7fff_ffff_ffff);
    Mac::from(held.cast_unsigned())
}

fn mac_w_held(a: Mac, product: i64) -> Mac
    requires { mag product < 2 ^ 62 + 1 }
    ensures { result ≡ Multiply.mac_w_held a product }
{
    let sum = a.macl.cast_signed() as i64 + product;
    Mac {
        mach: a.mach,
        macl: numbers::low_long(sum.clamp(-0x8000_0000, 0x7fff_ffff)),
    }
}

fn summed(a: Mac, product: i64) -> Mac
    ensures { result ≡ Multiply.summed a product }
{
    Mac::from(u64::from(a).wrapping_add(product.cast_unsigned()))
}

fn product_of_longs(m: u32, n: u32) -> i64
    ensures { result ≡ Multiply.product_long m n }
{
    n.cast_signed() as i64 * m.cast_signed() as i64
}

fn product_of_words(m: u32, n: u32) -> i64
    ensures { result ≡ Multiply.product_word m n }
{
    numbers::signed_word(n) * numbers::signed_word(m)
}

// Bits 47 to 0: the low word of MACH, signed, and MACL.
fn signed_48(a: Mac) -> i64
    ensures { result ≡ signed (2 ^ 47) (Multiply.joined a % 2 ^ 48) }
{
    numbers::signed_word(a.mach) * 0x1_0000_0000 + a.macl as i64
}
