// Comparisons, each giving T: document 000, section 6.16.
ghost use Rattle.std.specs.Prelude.{◌≡◌, ◌<◌};
ghost use Rattle.arithmetic.specs.Compares as Compares;

pub fn cmp_eq(m: u32, n: u32) -> u32
    ensures { result ≡ Compares.cmp_eq m n }
{
    (n == m) as u32
}

pub fn cmp_ge(m: u32, n: u32) -> u32
    ensures { result ≡ Compares.cmp_ge m n }
{
    (n.cast_signed() >= m.cast_signed()) as u32
}

pub fn cmp_gt(m: u32, n: u32) -> u32
    ensures { result ≡ Compares.cmp_gt m n }
{
    (n.cast_signed() > m.cast_signed()) as u32
}

pub fn cmp_hi(m: u32, n: u32) -> u32
    ensures { result ≡ Compares.cmp_hi m n }
{
    (n > m) as u32
}

pub fn cmp_hs(m: u32, n: u32) -> u32
    ensures { result ≡ Compares.cmp_hs m n }
{
    (n >= m) as u32
}

pub fn cmp_pl(n: u32) -> u32
    ensures { result ≡ Compares.cmp_pl n }
{
    (n.cast_signed() > 0) as u32
}

pub fn cmp_pz(n: u32) -> u32
    ensures { result ≡ Compares.cmp_pz n }
{
    (n.cast_signed() >= 0) as u32
}

pub fn cmp_str(m: u32, n: u32) -> u32
    ensures { result ≡ Compares.cmp_str m n }
{
    (same_byte(24, m, n) || same_byte(16, m, n) || same_byte(8, m, n) || same_byte(0, m, n)) as u32
}

fn same_byte(lowest: u32, m: u32, n: u32) -> bool
    requires { lowest < 32 }
    ensures { result ≡ Compares.same_byte lowest m n }
{
    (n >> lowest) % 0x100 == (m >> lowest) % 0x100
}
