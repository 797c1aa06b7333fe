// Prints the report of the image on standard input (document 01, "The runner").
#![tactic(auto)]

use std::io;

fn main(rt: HostRuntime) -> io::Result<()> {
    // One byte more than the longest image, to see that there is more.
    let mut image = [0u8; 65537];
    let mut text = report::buffer();
    let length = input::read_full(&mut rt.stdin(), &mut image);
    let n = report::report(&mut image[..length], &mut text);
    rt.write_all(&text[..n])
}
