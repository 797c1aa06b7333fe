// An access of 1, 2 or 4 bytes (document 01, "Memory"): what is true of every size stands once.
ghost use Rattle.std.specs.Prelude.{◌≡◌, ◌%◌, ℕ, bit_and};
ghost use Rattle.memory.specs.Access.{accessible, loaded, Stores};

use crate::width::Width;

// Why a load gives no value and a store changes nothing: the address is misaligned, or a byte lies outside.
#[derive(Clone, Copy, Debug, PartialEq, Eq)]
pub struct Fault;

// A load and a store of any size.
pub trait Access: Width {
    const BYTES: u32;

    // The bits that are zero in an aligned address.
    const ALIGNMENT_MASK: u32;

    ghost BYTES: { ℕ };

    ghost ALIGNMENT_MASK: { ℕ };

    ghost as_wide: { Self.width ≡ BYTES };

    ghost mask_tells_multiples: { (address : ℕ) → bit_and address ALIGNMENT_MASK ≡ address % Self.width };

    #[tactic(auto, unfolding(crate::specs::Access::accessible))]
    final fn accessible(memory: &[u8], address: u32) -> bool
        ensures { result ≡ accessible BYTES memory.now address }
    {
        address & Self::ALIGNMENT_MASK == 0
            && address as usize + Self::BYTES as usize <= memory.len()
    }

    #[tactic(auto, unfolding(crate::specs::Access::accessible, crate::specs::Access::loaded))]
    final fn load(memory: &[u8], address: u32) -> Option<u32>
        ensures { result ≡ loaded BYTES memory.now address }
    {
        if Self::accessible(memory, address) {
            Some(Self::read(memory, address as usize))
        } else {
            None
        }
    }

    #[tactic(auto, unfolding(crate::specs::Access::accessible, crate::specs::Access::answered, crate::specs::Access::stored_at))]
    final fn store(memory: &mut [u8], address: u32, value: u32) -> Result<(), Fault>
        ensures { Stores BYTES memory.old address value result memory.new }
    {
        if Self::accessible(memory, address) {
            Self::write(memory, address as usize, value);
            Ok(())
        } else {
            Err(Fault)
        }
    }
}
