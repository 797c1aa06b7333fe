// A record from a line (document 02, request One).
ghost use Rattle.std.specs.Prelude.{◌≡◌, ◌+◌, ◌*◌, ◌^◌, ◌<◌, ◌≤◌, ◌%◌, length, option_map};
ghost use Rattle.srecord.specs.Load.{sum};
ghost use Rattle.srecord.specs.Promises as Promises;
ghost use Rattle.srecord.specs.Records as Records;

use crate::lines;
use crate::openings::{Kind, Opening};

// What is kept of a record: the data's length is that of the bytes which it writes.
#[derive(Clone, Copy, Debug, PartialEq, Eq)]
pub struct Summary {
    pub opening: Opening,
    pub address: u32,
    pub length: u32,
    pub checks: bool,
}

// The byte that a pair of digits makes, where they are digits.
pub fn byte(pair: [u8; 2]) -> u8
    ensures { Promises.ByteOf pair result }
{
    let [high, low] = pair;
    ((text::value_of_digit(high) * 16 + text::value_of_digit(low)) % 256) as u8
}

// The low byte of the sum over pairs of digits. No branch leaves the loop before its end: what is not a digit is told behind it.
fn added(digits: &[u8]) -> Option<u32>
    ensures { result ≡ option_map (λ bytes. sum bytes % 256) (Records.bytes_of digits.now) }
{
    if digits.len() % 2 != 0 {
        return None;
    }
    let (pairs, _) = digits.as_chunks::<2>();
    let mut sum: u32 = 0;
    let mut good = true;
    for [high, low] in pairs {
        good = good & text::is_digit(*high) & text::is_digit(*low);
        sum = sum.wrapping_add(text::value_of_digit(*high) * 16 + text::value_of_digit(*low));
    }
    if good { Some(sum % 256) } else { None }
}

// The number that pairs of digits make.
fn number(pairs: &[[u8; 2]]) -> u32
    requires { length pairs.now ≤ 4 }
    ensures reads { Promises.NumberOf pairs.now result }
    ensures small { result < 256 ^ length pairs.now }
{
    let mut n = 0;
    for pair in pairs {
        n = n * 256 + byte(*pair) as u32;
    }
    n
}

// Whether a line of this kind may have this count; `least` is that of a line without data.
fn may(kind: Kind, least: usize, count: usize) -> bool
    ensures { result ≡ Records.may kind least count }
{
    match kind {
        Kind::Header | Kind::Data => least <= count,
        Kind::Count | Kind::Closing => count == least,
    }
}

fn data_length(kind: Kind, n: u32) -> u32
    ensures { result ≡ Promises.length_for kind n }
{
    if kind == Kind::Data { n } else { 0 }
}

fn with_bytes(opening: Opening, digits: &[u8]) -> Option<Summary>
    requires { opening.width ≤ 4 }
    ensures { result ≡ option_map Promises.summary (Promises.with_bytes opening (Records.bytes_of digits.now)) }
{
    let sum = added(digits)?;
    let (pairs, _) = digits.as_chunks::<2>();
    let count = byte(*pairs.first()?) as usize;
    let least = opening.width + 1;
    if pairs.len() != count + 1 || !may(opening.kind, least, count) {
        return None;
    }
    Some(Summary {
        opening,
        address: number(&pairs[1..least]),
        length: data_length(opening.kind, (count - least) as u32),
        checks: sum == 255,
    })
}

pub fn parse(line: &[u8]) -> Option<Summary>
    ensures { result ≡ option_map Promises.summary (Records.record_of line.now) }
{
    let line = lines::content(line)?;
    let opening = Opening::of(line)?;
    with_bytes(opening, &line[2..])
}

// What a line that is a record writes. Digits that do not say it are not looked at, so that `checks` means nothing here.
pub fn span(line: &[u8]) -> Option<Summary>
    ensures { Promises.Spans line.now result }
{
    let opening = Opening::of(line)?;
    let (pairs, _) = line[2..].as_chunks::<2>();
    let count = byte(*pairs.first()?) as usize;
    let least = opening.width + 1;
    if count < least || pairs.len() < least {
        return None;
    }
    Some(Summary {
        opening,
        address: number(&pairs[1..least]),
        length: data_length(opening.kind, (count - least) as u32),
        checks: false,
    })
}
