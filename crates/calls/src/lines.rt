// A call's line: what it was handed and, after a colon, what it gave.
use crate::call::Call;
use crate::given::Situation;
use machine::{Machine, Mode};
use memory::{Access, Long};
use std::io;

// Reset is handed no state: the state given is the blank one, which a refused reset returns.
pub fn handed(rt: &impl Print, call: Call, given: &Situation) -> io::Result<()> {
    match call {
        Call::Reset => print!(rt; "reset")?,
        Call::Step => {
            print!(rt; "step from ")?;
            state(rt, &given.machine)?;
        }
        Call::Run(budget) => {
            print!(rt; "run {budget} from ")?;
            state(rt, &given.machine)?;
        }
    }
    print!(rt; " over {} bytes: ", given.lent)
}

fn state(rt: &impl Print, machine: &Machine) -> io::Result<()> {
    match machine.mode {
        Mode::Running => print!(rt; "running")?,
        Mode::Slot(target) => print!(rt; "slot, target {target:08x}")?,
        Mode::Asleep => print!(rt; "asleep")?,
        Mode::Stopped(reason) => print!(rt; "stopped {}", u32::from(reason))?,
    }
    let control = &machine.control;
    print!(rt; ", pc {:08x}, sr {:08x}", control.pc, control.sr)
}

// Besides PC and SR, the registers that are not as given are named.
pub fn machine_left(
    rt: &impl Print,
    call: Call,
    after: &Machine,
    given: &Machine,
) -> io::Result<()> {
    state(rt, after)?;
    for (k, (value, before)) in after.r.iter().zip(&given.r).enumerate() {
        if value != before {
            print!(rt; ", r{k} {value:08x}")?;
        }
    }
    for (name, value, before) in [
        ("gbr", after.control.gbr, given.control.gbr),
        ("vbr", after.control.vbr, given.control.vbr),
        ("pr", after.control.pr, given.control.pr),
        ("mach", after.control.mach, given.control.mach),
        ("macl", after.control.macl, given.control.macl),
    ] {
        if value != before {
            print!(rt; ", {name} {value:08x}")?;
        }
    }
    if after == given {
        match call {
            Call::Reset => print!(rt; ", state blank")?,
            Call::Step | Call::Run(_) => print!(rt; ", state as given")?,
        }
    }
    Ok(())
}

// The longs of the memory that are not as given; of the whole memory, where the call was lent a part of it.
pub fn memory_left(rt: &impl Print, memory: &[u8; 1024], given: &[u8; 1024]) -> io::Result<()> {
    for at in (0..1024).step_by(4) {
        if let Some(value) = Long::load(memory, at)
            && Long::load(given, at) != Some(value)
        {
            print!(rt; ", long at {at:08x} {value:08x}")?;
        }
    }
    if memory == given {
        print!(rt; ", memory as given")?;
    }
    println!(rt)
}
