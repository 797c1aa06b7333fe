// Big-endian loads and stores of a byte, a word and a long over a lent memory, and the lengths that it may have (document 01, "Memory").
#![tactic(auto)]

ghost use Rattle.std.specs.Prelude.{◌≡◌, ◌<◌, length};
ghost use Rattle.memory.specs.Access.{put, ByteAt};

mod access;
mod byte;
mod lengths;
mod long;
mod width;
mod word;

pub use access::{Access, Fault};
pub use byte::Byte;
pub use lengths::{BadLength, check_length};
pub use long::Long;
pub use word::Word;

fn read_byte(memory: &[u8], at: usize) -> u32
    requires { at < length memory.now }
    ensures { ByteAt memory.now at result }
{
    memory[at] as u32
}

// Every byte that a store changes is changed here: the one place that says which bytes may change.
#[tactic(auto, unfolding(crate::specs::Access::put))]
fn write_byte(memory: &mut [u8], at: usize, byte: u8)
    requires { at < length memory.old }
    ensures { memory.new ≡ put memory.old at byte }
{
    memory[at] = byte;
}
