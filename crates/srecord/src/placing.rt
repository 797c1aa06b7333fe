// The data of a text's lines, written into the memory (document 02, request One).
ghost use Rattle.std.specs.Prelude.{◌≡◌, ◌+◌, ◌*◌, ◌≤◌, length, slice_set};
ghost use Rattle.srecord.specs.Load.{placed, records};
ghost use Rattle.srecord.specs.Promises.{PlacesData, placed_by};
ghost use Rattle.srecord.specs.Records.{record_of};

use crate::{lines, records};

// Writes a byte, where there is memory.
fn put(memory: &mut [u8], at: usize, byte: u8)
    ensures { memory.new ≡ slice_set memory.old at byte }
{
    if memory.len() <= at {
        return;
    }
    memory[at] = byte;
}

// Writes the bytes that pairs of digits make, from `address` on.
fn place_data(pairs: &[[u8; 2]], memory: &mut [u8], address: u32)
    ensures { PlacesData pairs.now memory.old address memory.new }
{
    for (i, pair) in pairs.iter().enumerate() {
        put(memory, address as usize + i, records::byte(*pair));
    }
}

// A line's data stand behind its opening, count and address.
fn place_line(line: &[u8], memory: &mut [u8])
    ensures { memory.new ≡ placed_by memory.old (record_of line.now) }
{
    if let Some(r) = records::parse(line) {
        let (pairs, _) = line[2..].as_chunks::<2>();
        let from = r.opening.width + 1;
        place_data(&pairs[from..from + r.length as usize], memory, r.address);
    }
}

pub fn place(text: &[u8], memory: &mut [u8])
    ensures { memory.new ≡ placed memory.old (records text.now) }
{
    for line in text.split_inclusive(|b| *b == b'\n') {
        place_line(line, memory);
    }
}
