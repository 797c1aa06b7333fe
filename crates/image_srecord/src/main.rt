// Reads an image on standard input, as the runner does, and writes it as S-records; or says why it is refused.
#![tactic(auto)]

use srecord::Refusal;
use std::io;

// The longest image (document 01, "The runner").
const LONGEST: usize = 65536;

fn main(rt: HostRuntime) -> io::Result<()> {
    // One byte more than the longest image, to see that there is more.
    let mut image = [0u8; 65537];
    // Room for the text of the longest image.
    let mut text = [0u8; 192527];
    let length = input::read_full(&mut rt.stdin(), &mut image);
    print_text(&rt, &image[..length], &mut text)
}

fn print_text(rt: &impl Print, image: &[u8], text: &mut [u8]) -> io::Result<()> {
    if image.len() > LONGEST {
        return print_refusal(rt, Refusal::Size);
    }
    match srecord::export(image, text) {
        Ok(n) => rt.write_all(&text[..n]),
        Err(refusal) => print_refusal(rt, refusal),
    }
}

fn print_refusal(rt: &impl Print, refusal: Refusal) -> io::Result<()> {
    println!(rt; "refused {}", u32::from(refusal))
}
