// Prints the report of each image of a corpus on standard input, under its number. A corpus is a count, then for each image its length
// and its bytes; count and length are longs, as in memory. Where the corpus breaks off, the output ends.
#![tactic(auto)]

use std::io;
use std::io::Read;

fn main(rt: HostRuntime) -> io::Result<()> {
    let mut stdin = rt.stdin();
    // The longest image that is read.
    let mut buffer = [0u8; 65540];
    // An input that ended before its count may go on, as a terminal's does: it is read as far as it goes.
    let count = read_long(&mut stdin).unwrap_or(u32::MAX);
    for number in 1..=count {
        let Some(image) = read_image(&mut stdin, &mut buffer) else {
            break;
        };
        print_report(&rt, number, image)?;
    }
    Ok(())
}

// Reads the next image into the buffer, and gives the part that it takes.
fn read_image<'a>(stdin: &mut impl Read, buffer: &'a mut [u8]) -> Option<&'a mut [u8]> {
    let length = read_long(stdin)? as usize;
    let image = buffer.get_mut(..length)?;
    if input::read_full(stdin, image) < length {
        return None;
    }
    Some(image)
}

fn read_long(stdin: &mut impl Read) -> Option<u32> {
    let mut bytes = [0u8; 4];
    (input::read_full(stdin, &mut bytes) == bytes.len()).then_some(u32::from_be_bytes(bytes))
}

fn print_report(rt: &impl Print, number: u32, image: &mut [u8]) -> io::Result<()> {
    println!(rt; "image {number}")?;
    let mut text = report::buffer();
    let n = report::report(image, &mut text);
    rt.write_all(&text[..n])
}
