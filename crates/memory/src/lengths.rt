// Which lengths of a memory are refused (document 01, "Memory" and "Refusals of a call").
ghost use Rattle.std.specs.Prelude.{◌≡◌};
ghost use Rattle.memory.specs.Lengths.{bad_length_number, length_number, refused_length};

// Document 01's refusals for a length, by their numbers.
#[derive(Clone, Copy, Debug, PartialEq, Eq)]
pub enum BadLength {
    // The length is not a multiple of 4.
    Ragged = 1,
    // It is below 1,024 or above 16,777,216.
    Size = 2,
}

impl From<BadLength> for u32 {
    ghost from_gives = { λ bad number. number ≡ bad_length_number bad };

    fn from(bad: BadLength) -> u32 {
        bad as u32
    }
}

pub fn check_length(length: usize) -> Result<(), BadLength>
    ensures { length_number result ≡ refused_length length }
{
    if length % 4 != 0 {
        return Err(BadLength::Ragged);
    }
    if length < 1024 {
        return Err(BadLength::Size);
    }
    if length > 16777216 {
        return Err(BadLength::Size);
    }
    Ok(())
}
