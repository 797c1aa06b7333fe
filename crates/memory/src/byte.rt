// An access of one byte, at any address (document 01, "Memory").
ghost use Rattle.std.specs.Prelude.{refl};
ghost use lib.Bits.{and_mask};

use crate::width::Width;
use crate::{Access, read_byte, write_byte};

#[derive(Clone, Copy, Debug, PartialEq, Eq)]
pub struct Byte;

impl Access for Byte {
    const BYTES: u32 = 1;

    const ALIGNMENT_MASK: u32 = 0;

    ghost BYTES = { 1 };

    ghost ALIGNMENT_MASK = { 0 };

    ghost as_wide = { refl };

    ghost mask_tells_multiples = { λ address. and_mask address 0 };
}

impl Width for Byte {
    ghost width = { 1 };

    #[tactic(auto, unfolding(crate::specs::Access::value_at))]
    fn read(memory: &[u8], at: usize) -> u32 {
        read_byte(memory, at)
    }

    #[tactic(auto, unfolding(crate::specs::Access::written))]
    fn write(memory: &mut [u8], at: usize, value: u32) {
        write_byte(memory, at, (value % 256) as u8);
    }
}
