// Reads S-record text on standard input into a memory of 65,536 zeros, and writes the memory; or says why the text is refused.
#![tactic(auto)]

ghost use Rattle.std.specs.Prelude.{◌≡◌, length};

use std::io;

// The longest text that is taken: 1 MiB.
const LONGEST: usize = 1048576;

// Room for the longest text and one byte more, to see that there is more.
fn room() -> [u8; 1048577]
    ensures { 1048577 ≡ length result }
{
    [0; 1048577]
}

fn main(rt: HostRuntime) -> io::Result<()> {
    let mut text = room();
    let mut memory = [0u8; 65536];
    let length = input::read_full(&mut rt.stdin(), &mut text);
    print_image(&rt, &text[..length], &mut memory)
}

fn print_image(rt: &impl Print, text: &[u8], memory: &mut [u8]) -> io::Result<()> {
    if text.len() > LONGEST {
        return println!(rt; "The text is longer than 1,048,576 bytes, the most that is taken.");
    }
    match srecord::load(text, memory) {
        Ok(()) => rt.write_all(memory),
        Err(refused) => {
            let number = u32::from(refused.refusal);
            println!(rt; "refused {number} line {}", refused.line)
        }
    }
}
