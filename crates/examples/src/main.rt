// Runs the examples of document 000 that need the machine, in its order: each is an image of 16,384 bytes that is reset and run, and
// what the manual says of the state after execution is printed. The tables name the lines of the document's text. An address that
// lies outside the memory keeps its last three digits: H'10000004 is H'3004 here, H'12345670 H'3670 and H'FFFF7F80 H'3F80.
#![tactic(auto)]

mod add_to_cmp;
mod chapter_4;
mod div1;
mod dmuls_to_mac;
mod image;
mod mov_to_mulu;
mod negc_to_xtrct;
mod notes;
mod player;
mod table;

use std::io;

fn main(rt: HostRuntime) -> io::Result<()> {
    for examples in [
        chapter_4::EXAMPLES,
        notes::EXAMPLES,
        add_to_cmp::EXAMPLES,
        div1::EXAMPLES,
        dmuls_to_mac::EXAMPLES,
        mov_to_mulu::EXAMPLES,
        negc_to_xtrct::EXAMPLES,
    ] {
        player::play(&rt, examples)?;
    }
    Ok(())
}
