// Addresses counted from PC, which is the instruction's own address and 4: document 01, "Branch addresses" and "PC-relative data".
ghost use Rattle.std.specs.Prelude.{◌≡◌};
ghost use Rattle.arithmetic.specs.Addresses as Addresses;

pub fn following(a: u32) -> u32
    ensures { result ≡ Addresses.following a }
{
    a.wrapping_add(4)
}

// A branch by a displacement, of which those from HALF up are negative; the decoder gives d no bit above its width. HALF is a const
// parameter, so that each width is compiled for itself: docs/DECISIONS.md, "The code".
pub fn branch<const HALF: u32>(a: u32, d: u32) -> u32
    ensures { result ≡ Addresses.branch HALF (Addresses.following a) d }
{
    let once = numbers::low_long(numbers::signed(d, HALF));
    following(a).wrapping_add(once.wrapping_add(once))
}

pub fn far(a: u32, m: u32) -> u32
    ensures { result ≡ Addresses.far (Addresses.following a) m }
{
    following(a).wrapping_add(m)
}

pub fn relative_word(a: u32, d: u8) -> u32
    ensures { result ≡ Addresses.relative_word (Addresses.following a) d }
{
    following(a).wrapping_add(d as u32 * 2)
}

pub fn relative_long(a: u32, d: u8) -> u32
    ensures { result ≡ Addresses.relative_long (Addresses.following a) d }
{
    (following(a) / 4 * 4).wrapping_add(d as u32 * 4)
}
