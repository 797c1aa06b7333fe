// An access of four bytes, at a multiple of 4 (document 01, "Memory").
ghost use Rattle.std.specs.Prelude.{refl};
ghost use lib.Bits.{and_mask};

use crate::width::Width;
use crate::{Access, read_byte, write_byte};

#[derive(Clone, Copy, Debug, PartialEq, Eq)]
pub struct Long;

impl Access for Long {
    const BYTES: u32 = 4;

    const ALIGNMENT_MASK: u32 = 3;

    ghost BYTES = { 4 };

    ghost ALIGNMENT_MASK = { 3 };

    ghost as_wide = { refl };

    ghost mask_tells_multiples = { λ address. and_mask address 2 };
}

impl Width for Long {
    ghost width = { 4 };

    #[tactic(auto, unfolding(crate::specs::Access::value_at))]
    fn read(memory: &[u8], at: usize) -> u32 {
        let high = read_byte(memory, at) * 256 + read_byte(memory, at + 1);
        let low = read_byte(memory, at + 2) * 256 + read_byte(memory, at + 3);
        high * 65536 + low
    }

    #[tactic(auto, unfolding(crate::specs::Access::written))]
    fn write(memory: &mut [u8], at: usize, value: u32) {
        write_byte(memory, at, (value / 16777216 % 256) as u8);
        write_byte(memory, at + 1, (value / 65536 % 256) as u8);
        write_byte(memory, at + 2, (value / 256 % 256) as u8);
        write_byte(memory, at + 3, (value % 256) as u8);
    }
}
