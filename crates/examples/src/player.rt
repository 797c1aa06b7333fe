// Executes examples, and prints a line for each: its title, and what the manual says of the state after execution.
use crate::image;
use crate::table::{After, Example};
use machine::{Answer, Mode};
use memory::{Access, Byte, Long, Word};
use std::io;

pub fn play(rt: &impl Print, examples: &[Example]) -> io::Result<()> {
    for example in examples {
        let mut image = [0u8; 16384];
        print!(rt; "{}", example.title)?;
        let Some(answer) = image::execute(&mut image, example) else {
            println!(rt; " does not fit")?;
            continue;
        };
        let mut separator = ": ";
        for after in example.after {
            print!(rt; "{separator}")?;
            show(rt, *after, &answer, &image)?;
            separator = ", ";
        }
        println!(rt)?;
    }
    Ok(())
}

fn show(rt: &impl Print, after: After, answer: &Answer, image: &[u8]) -> io::Result<()> {
    let machine = &answer.machine;
    match after {
        After::Value(register) => print!(rt; "{register:?} = {:08x}", register.value(machine)),
        After::LastWord(register) => {
            print!(rt;
                "{register:?} (16 bits) = {:04x}",
                register.value(machine) % 0x10000
            )
        }
        After::LongAt(name, at) => show_loaded(rt, name, Long::load(image, at), 8),
        After::WordAt(name, at) => show_loaded(rt, name, Word::load(image, at), 4),
        After::ByteAt(name, at) => show_loaded(rt, name, Byte::load(image, at), 2),
        After::T => print!(rt; "T = {}", machine.control.t_bit()),
        After::Asleep => print!(rt; "asleep = {}", (machine.mode == Mode::Asleep) as u8),
        After::Steps => print!(rt; "steps = {}", answer.steps),
    }
}

fn show_loaded(rt: &impl Print, name: &str, loaded: Option<u32>, digits: usize) -> io::Result<()> {
    match loaded {
        Some(value) => print!(rt; "{name} = {value:0digits$x}"),
        None => print!(rt; "{name} = outside"),
    }
}
