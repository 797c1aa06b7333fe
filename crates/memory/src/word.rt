// An access of two bytes, at an even address (document 01, "Memory").
ghost use Rattle.std.specs.Prelude.{refl};
ghost use lib.Bits.{and_mask};

use crate::width::Width;
use crate::{Access, read_byte, write_byte};

#[derive(Clone, Copy, Debug, PartialEq, Eq)]
pub struct Word;

impl Access for Word {
    const BYTES: u32 = 2;

    const ALIGNMENT_MASK: u32 = 1;

    ghost BYTES = { 2 };

    ghost ALIGNMENT_MASK = { 1 };

    ghost as_wide = { refl };

    ghost mask_tells_multiples = { λ address. and_mask address 1 };
}

impl Width for Word {
    ghost width = { 2 };

    #[tactic(auto, unfolding(crate::specs::Access::value_at))]
    fn read(memory: &[u8], at: usize) -> u32 {
        let high = read_byte(memory, at);
        let low = read_byte(memory, at + 1);
        high * 256 + low
    }

    #[tactic(auto, unfolding(crate::specs::Access::written))]
    fn write(memory: &mut [u8], at: usize, value: u32) {
        write_byte(memory, at, (value / 256 % 256) as u8);
        write_byte(memory, at + 1, (value % 256) as u8);
    }
}
