// Extensions and exchanges within registers: document 000, sections 6.23, 6.24, 6.37, 6.65 and 6.70.
ghost use Rattle.std.specs.Prelude.{◌≡◌};
ghost use Rattle.arithmetic.specs.Transfers as Transfers;

pub fn exts_b(m: u32) -> u32
    ensures { result ≡ Transfers.exts_b m }
{
    numbers::low_long(numbers::signed_byte(m))
}

pub fn exts_w(m: u32) -> u32
    ensures { result ≡ Transfers.exts_w m }
{
    numbers::low_long(numbers::signed_word(m))
}

pub fn extu_b(m: u32) -> u32
    ensures { result ≡ Transfers.extu_b m }
{
    m % 0x100
}

pub fn extu_w(m: u32) -> u32
    ensures { result ≡ Transfers.extu_w m }
{
    m % 0x1_0000
}

pub fn movt(t: u32) -> u32
    ensures { result ≡ Transfers.movt t }
{
    t
}

pub fn swap_b(m: u32) -> u32
    ensures { result ≡ Transfers.swap_b m }
{
    m / 0x1_0000 * 0x1_0000 + m % 0x100 * 0x100 + m / 0x100 % 0x100
}

pub fn swap_w(m: u32) -> u32
    ensures { result ≡ Transfers.swap_w m }
{
    m % 0x1_0000 * 0x1_0000 + m / 0x1_0000
}

pub fn xtrct(m: u32, n: u32) -> u32
    ensures { result ≡ Transfers.xtrct m n }
{
    m % 0x1_0000 * 0x1_0000 + n / 0x1_0000
}
