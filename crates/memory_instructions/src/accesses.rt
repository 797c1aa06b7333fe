// The accesses of MOV (document 000, sections 4.2 and 6.32 to 6.35): a size, an effective address, and the extension of what is loaded.
ghost use Rattle.std.specs.Prelude.{◌≡◌, ℕ, ◌*◌, List};
ghost use Rattle.memory.specs.Access.{loaded, Stores};
ghost use Rattle.instructions.specs.Promises as Promises;

use arithmetic::transfers;
use decoder::{Address, Size};
use instructions::Control;
use memory::{Access, Byte, Fault, Long, Word};

pub fn bytes(size: Size) -> u32
    ensures { result ≡ Promises.bytes size }
{
    match size {
        Size::Byte => Byte::BYTES,
        Size::Word => Word::BYTES,
        Size::Long => Long::BYTES,
    }
}

pub fn effective(size: Size, address: Address, control: &Control, r: &[u32; 16]) -> u32
    ensures { (memory : List ℕ) → result ≡ Promises.effective size address (Promises.state r.now control.now memory) }
{
    match address {
        Address::Indirect(n) => r[(n % 16) as usize],
        Address::Indexed(n) => r[0].wrapping_add(r[(n % 16) as usize]),
        Address::Displacement(d, n) => r[(n % 16) as usize].wrapping_add(scaled(size, d)),
        Address::GbrDisplacement(d) => control.gbr.wrapping_add(scaled(size, d)),
    }
}

fn scaled(size: Size, d: u8) -> u32
    ensures { result ≡ d * Promises.bytes size }
{
    d as u32 * bytes(size)
}

// What a register takes from memory.
pub fn load(size: Size, memory: &[u8], at: u32) -> Option<u32>
    ensures { result ≡ Promises.extended_load size (loaded (Promises.bytes size) memory.now at) }
{
    match size {
        Size::Byte => Byte::load(memory, at).map(transfers::exts_b),
        Size::Word => Word::load(memory, at).map(transfers::exts_w),
        Size::Long => Long::load(memory, at),
    }
}

pub fn store(size: Size, memory: &mut [u8], at: u32, value: u32) -> Result<(), Fault>
    ensures { Stores (Promises.bytes size) memory.old at value result memory.new }
{
    match size {
        Size::Byte => Byte::store(memory, at, value),
        Size::Word => Word::store(memory, at, value),
        Size::Long => Long::store(memory, at, value),
    }
}
