// Motorola S-record text, read into a lent memory and written into a lent buffer (document 02, request One).
#![tactic(auto)]

mod exporting;
mod lines;
mod marks;
mod openings;
mod placing;
mod records;
mod sweep;
mod twice;

ghost use Rattle.std.specs.Prelude.{◌≡◌, Err};
ghost use Rattle.memory.specs.Lengths.{bad_length_number};
ghost use Rattle.srecord.specs.Load as Load;
ghost use Rattle.srecord.specs.Load.{Loads, refusal_number, told};

pub use exporting::export;
use memory::BadLength;

// Why a call is refused: document 01's 1 and 2, and those of request One, by their numbers.
#[derive(Clone, Copy, Debug, PartialEq, Eq)]
pub enum Refusal {
    // The memory's length is not a multiple of 4.
    Ragged = 1,
    // The length is below 1,024 or above 16,777,216.
    Size = 2,
    // Bad letter, type, length or line end, or a line after the closing one.
    Line = 10,
    // Bad check byte.
    Check = 11,
    // A data byte outside memory.
    Outside = 12,
    // Address written twice.
    Twice = 13,
    // Wrong S5 number.
    Number = 14,
    // No closing line.
    Unclosed = 15,
    // Buffer too short.
    Room = 16,
}

impl From<Refusal> for u32 {
    ghost from_gives = { λ refusal number. number ≡ refusal_number refusal };

    fn from(refusal: Refusal) -> u32 {
        refusal as u32
    }
}

// The refusal of a text, and the line that it is about: 0 where it is about none.
#[derive(Clone, Copy, Debug, PartialEq, Eq)]
pub struct Refused {
    pub refusal: Refusal,
    pub line: usize,
}

impl From<BadLength> for Refusal {
    ghost from_gives = { λ bad refusal. refusal_number refusal ≡ bad_length_number bad };

    fn from(bad: BadLength) -> Refusal {
        match bad {
            BadLength::Ragged => Refusal::Ragged,
            BadLength::Size => Refusal::Size,
        }
    }
}

impl From<BadLength> for Refused {
    ghost from_gives = { λ bad refused. told (Err refused) ≡ Load.verdict (bad_length_number bad) 0 };

    fn from(bad: BadLength) -> Refused {
        Refused {
            refusal: Refusal::from(bad),
            line: 0,
        }
    }
}

pub fn load(text: &[u8], memory: &mut [u8]) -> Result<(), Refused>
    ensures { Loads text.now memory.old result memory.new }
{
    verdict(text, memory.len())?;
    placing::place(text, memory);
    Ok(())
}

// 1 and 2 first; then by line.
fn verdict(text: &[u8], size: usize) -> Result<(), Refused>
    ensures { told result ≡ Load.verdict_on text.now size }
{
    memory::check_length(size)?;
    let swept = sweep::sweep(text, size);
    // Data in order of their addresses: no address can be written twice.
    if swept.ordered {
        return swept.verdict;
    }
    match twice::first_again(text, size, swept.passed) {
        Some(n) => Err(Refused {
            refusal: Refusal::Twice,
            line: n + 1,
        }),
        None => swept.verdict,
    }
}
