// A memory, written as a text (document 02, request One). Whether the text has room is known before the first byte is written.
ghost use Rattle.std.specs.Prelude.{◌≡◌, ◌+◌, ◌*◌, ◌%◌, ◌<◌, ◌≤◌, min, length};
ghost use Rattle.std.proofs.lemmas.List.Edits.{sets};
ghost use Rattle.text.specs.Text as Text;
ghost use Rattle.text.specs.declared.digits.Case.TheVariants.{Upper};
ghost use Rattle.srecord.specs.Export as Export;
ghost use Rattle.srecord.specs.Export.{Exports, line_of, memory_lines};
ghost use Rattle.srecord.specs.Load as Load;
ghost use Rattle.srecord.specs.Promises.{Places};

use crate::{Refusal, openings};

// A digit's character without a branch, since the digits of a memory mislead a processor that guesses: between 9 and A stand seven others.
fn digit(d: u8) -> u8
    requires { d < 16 }
    ensures { result ≡ Text.digit Upper d }
{
    b'0' + d + (d + 6) / 16 * 7
}

// The digits of bytes, two each. An iterator over the bytes, with the place counted beside it, took twice as long as the index.
fn pairs(buffer: &mut [u8], at: usize, bytes: &[u8])
    requires { at + 2 * length bytes.now ≤ length buffer.old }
    ensures { buffer.new ≡ sets buffer.old at (Export.pairs bytes.now) }
{
    for i in 0..bytes.len() {
        let byte = bytes[i];
        buffer[at + 2 * i] = digit(byte / 16);
        buffer[at + 2 * i + 1] = digit(byte % 16);
    }
}

// The low byte of the sum.
fn sum(bytes: &[u8]) -> u8
    ensures { result ≡ Load.sum bytes.now % 256 }
{
    let mut total: u8 = 0;
    for byte in bytes {
        total = total.wrapping_add(*byte);
    }
    total
}

// Writes a line, and answers the place behind it.
fn line(buffer: &mut [u8], at: usize, start: &[u8; 2], address: u32, bytes: &[u8]) -> usize
    requires { (length start.now ≡ 2) × (length bytes.now ≤ 16) × (at + (2 * length bytes.now + 15) ≤ length buffer.old) }
    ensures { Places (line_of start.now address bytes.now) buffer.old at buffer.new result }
{
    // Count and address.
    let head = [
        bytes.len() as u8 + 5,
        (address / 0x100_0000) as u8,
        (address / 0x1_0000 % 256) as u8,
        (address / 0x100 % 256) as u8,
        (address % 256) as u8,
    ];
    let check = [255 - sum(&head).wrapping_add(sum(bytes))];
    let end = at + 12 + 2 * bytes.len();
    buffer[at] = start[0];
    buffer[at + 1] = start[1];
    pairs(buffer, at + 2, &head);
    pairs(buffer, at + 12, bytes);
    pairs(buffer, end, &check);
    buffer[end + 2] = b'\n';
    end + 3
}

fn data_lines(memory: &[u8], buffer: &mut [u8]) -> usize
    requires { (length memory.now ≤ 16777216) × (length (memory_lines memory.now) ≤ length buffer.old) }
    ensures { Places (memory_lines memory.now) buffer.old 0 buffer.new result }
{
    let mut place = 0;
    for (i, bytes) in memory.chunks(16).enumerate() {
        place = line(buffer, place, &openings::S3, 16 * i as u32, bytes);
    }
    place
}

pub fn export(memory: &[u8], buffer: &mut [u8]) -> Result<usize, Refusal>
    ensures { Exports memory.now buffer.old result buffer.new }
{
    let n = memory.len();
    memory::check_length(n)?;
    // Two digits a byte; and 15 characters more a line: start, count, address, check byte and line feed.
    if buffer.len() < 2 * n + 15 * ((n + 15) / 16) + 15 {
        return Err(Refusal::Room);
    }
    let place = data_lines(memory, buffer);
    Ok(line(buffer, place, &openings::S7, 0, &[]))
}
