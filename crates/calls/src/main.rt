// Calls `reset`, `step` and `run` where no other program does: step by step, refused, of a machine that is asleep, stopped or in a slot.
// Each line has a call and what it gave, over document 01's image ("The runner") or one that differs from it in a few words.
#![tactic(auto)]

mod call;
mod given;
mod lines;

use call::Call;
use given::Situation;
use machine::{Mode, Stop};
use memory::Word;
use std::io;

const LARGEST_BUDGET: u32 = 0xffffffff;

// Step by step, and then in runs.
fn to_sleep(rt: &impl Print) -> io::Result<()> {
    println!(rt; "MOV #5,R0; SLEEP")?;
    let started = Call::Reset.make(rt, Situation::from_blank())?;
    let first = Call::Step.make(rt, started)?;
    let asleep = Call::Step.make(rt, first)?;
    Call::Step.make(rt, asleep)?;
    Call::Run(LARGEST_BUDGET).make(rt, asleep)?;
    Call::Run(0).make(rt, started)?;
    Call::Run(1).make(rt, started)?;
    Call::Run(LARGEST_BUDGET).make(rt, started)?;
    Ok(())
}

// "Asleep or stopped: nothing happens and no step is counted" ("One step", 1). No step gives reason 3, but a caller may.
fn from_stopped(rt: &impl Print) -> io::Result<()> {
    println!(rt; "the same, stopped")?;
    Call::Step.make(rt, Situation::from_blank())?;
    Call::Run(LARGEST_BUDGET).make(rt, Situation::from_blank())?;
    Call::Step.make(rt, Situation::marked(0xf0, Mode::Stopped(Stop::Push)))?;
    Call::Run(2).make(rt, Situation::marked(0xf0, Mode::Stopped(Stop::Branch)))?;
    Ok(())
}

// Refusal 3: "SR given has a bit outside H'3F3". It does not ask for the mode or the budget.
fn statuses(rt: &impl Print) -> io::Result<()> {
    println!(rt; "the same, with three values of SR")?;
    with_status(rt, 0x3f3)?;
    with_status(rt, 0x4f0)?;
    with_status(rt, 0xffffffff)
}

fn with_status(rt: &impl Print, sr: u32) -> io::Result<()> {
    Call::Step.make(rt, Situation::marked(sr, Mode::Running))?;
    Call::Run(0).make(rt, Situation::marked(sr, Mode::Running))?;
    Call::Run(2).make(rt, Situation::marked(sr, Mode::Running))?;
    Call::Step.make(rt, Situation::marked(sr, Mode::Slot(0x206)))?;
    Call::Step.make(rt, Situation::marked(sr, Mode::Asleep))?;
    Call::Run(2).make(rt, Situation::marked(sr, Mode::Asleep))?;
    Call::Step.make(rt, Situation::marked(sr, Mode::Stopped(Stop::Push)))?;
    Ok(())
}

// Refusals 1 and 2, and that they are tried before 3: "Length 1,022 is 1; length 0 and 1,020 are 2".
fn lengths(rt: &impl Print) -> io::Result<()> {
    println!(rt; "the same, cut short")?;
    over_bytes(rt, 1022)?;
    over_bytes(rt, 0)?;
    over_bytes(rt, 1020)
}

fn over_bytes(rt: &impl Print, length: usize) -> io::Result<()> {
    Call::Reset.make(rt, Situation::from_blank().lending(length))?;
    Call::Step.make(rt, Situation::marked(0xf0, Mode::Running).lending(length))?;
    Call::Step.make(rt, Situation::marked(0x4f0, Mode::Running).lending(length))?;
    Call::Run(2).make(rt, Situation::marked(0xf0, Mode::Running).lending(length))?;
    Call::Run(2).make(rt, Situation::marked(0x4f0, Mode::Running).lending(length))?;
    Ok(())
}

// "A taken delayed branch is a step of its own", so a budget may end between it and its slot.
fn before_a_slot(rt: &impl Print) -> io::Result<()> {
    println!(rt; "BRA H'206; MOV #5,R0; SLEEP at H'206")?;
    let branch = Situation::from_blank().with::<Word>(0x200, 0xa001);
    let slot = branch.with::<Word>(0x202, 0xe005);
    let started = Call::Reset.make(rt, slot.with::<Word>(0x206, 0x001b))?;
    let cut = Call::Run(1).make(rt, started)?;
    Call::Run(0).make(rt, cut)?;
    let target = Call::Step.make(rt, cut)?;
    Call::Step.make(rt, target)?;
    Call::Run(2).make(rt, started)?;
    Ok(())
}

// The vectors 4, 6 and 9: a general illegal instruction, an illegal slot and an address error of the fetch.
fn exceptions(rt: &impl Print) -> io::Result<()> {
    println!(rt; "H'FFFF, which is undefined, with VBR H'80 and R15 H'400")?;
    Call::Step.make(rt, Situation::undefined(0x200, 0x80, 0x400, Mode::Running))?;
    Call::Step.make(
        rt,
        Situation::undefined(0x200, 0x80, 0x400, Mode::Slot(0x206)),
    )?;
    Call::Step.make(rt, Situation::undefined(0x201, 0x80, 0x400, Mode::Running))?;
    Ok(())
}

// Reason 1, "else reason 2" ("Exceptions"): the step that stops counts as one, a step after it as none.
fn stops(rt: &impl Print) -> io::Result<()> {
    println!(rt; "the same, with R15 H'402")?;
    let stopped = Call::Step.make(rt, Situation::undefined(0x200, 0x80, 0x402, Mode::Running))?;
    Call::Step.make(rt, stopped)?;
    println!(rt; "the same, with VBR H'3F0")?;
    Call::Step.make(rt, Situation::undefined(0x200, 0x3f0, 0x400, Mode::Running))?;
    println!(rt; "the same, with both")?;
    Call::Step.make(rt, Situation::undefined(0x200, 0x3f0, 0x402, Mode::Running))?;
    Ok(())
}

fn main(rt: HostRuntime) -> io::Result<()> {
    to_sleep(&rt)?;
    from_stopped(&rt)?;
    statuses(&rt)?;
    lengths(&rt)?;
    before_a_slot(&rt)?;
    exceptions(&rt)?;
    stops(&rt)
}
