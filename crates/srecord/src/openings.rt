// The eight byte strings that open a line (document 02, request One).
ghost use Rattle.std.specs.Prelude.{◌≡◌};
ghost use Rattle.srecord.specs.Records.{opening_of};

pub const S0: [u8; 2] = *b"S0";

pub const S1: [u8; 2] = *b"S1";

pub const S2: [u8; 2] = *b"S2";

pub const S3: [u8; 2] = *b"S3";

pub const S5: [u8; 2] = *b"S5";

pub const S7: [u8; 2] = *b"S7";

pub const S8: [u8; 2] = *b"S8";

pub const S9: [u8; 2] = *b"S9";

// What a line is for.
#[derive(Clone, Copy, Debug, PartialEq, Eq)]
pub enum Kind {
    Header,
    Data,
    Count,
    Closing,
}

// One of the eight, what such a line is for, and how many bytes its address has.
#[derive(Clone, Copy, Debug, PartialEq, Eq)]
pub struct Opening {
    pub start: [u8; 2],
    pub kind: Kind,
    pub width: usize,
}

impl Opening {
    pub fn of(line: &[u8]) -> Option<Self>
        ensures { result ≡ opening_of line.now }
    {
        let start = *line.first_chunk()?;
        let (kind, width) = match start {
            S0 => (Kind::Header, 2),
            S1 => (Kind::Data, 2),
            S2 => (Kind::Data, 3),
            S3 => (Kind::Data, 4),
            S5 => (Kind::Count, 2),
            S7 => (Kind::Closing, 4),
            S8 => (Kind::Closing, 3),
            S9 => (Kind::Closing, 2),
            _ => return None,
        };
        Some(Opening { start, kind, width })
    }
}
