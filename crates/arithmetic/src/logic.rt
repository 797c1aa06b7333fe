// Logic operations, bit by bit: document 000, sections 6.5, 6.44, 6.45, 6.68 and 6.69.
ghost use Rattle.std.specs.Prelude.{◌≡◌, bit_and, bit_or, bit_xor};
ghost use Rattle.arithmetic.specs.Logic as Logic;

pub fn and(m: u32, n: u32) -> u32
    ensures { result ≡ bit_and n m }
{
    n & m
}

pub fn not(m: u32) -> u32
    ensures { result ≡ Logic.complement m }
{
    !m
}

pub fn or(m: u32, n: u32) -> u32
    ensures { result ≡ bit_or n m }
{
    n | m
}

pub fn tst(m: u32, n: u32) -> u32
    ensures { result ≡ Logic.tst m n }
{
    (n & m == 0) as u32
}

pub fn xor(m: u32, n: u32) -> u32
    ensures { result ≡ bit_xor n m }
{
    n ^ m
}
