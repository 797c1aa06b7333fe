// One step (document 01, "One step").
ghost use Rattle.std.specs.Prelude.{◌≡◌, false};
ghost use Rattle.machine.specs.Step as Step;
ghost use Rattle.machine.specs.Promises.{Admits, Advances, Settles};

use crate::{Mode, exceptions};
use instructions::{Control, Flow};
use memory::{Access, Word};

// Of a machine that runs, in a slot or not.
pub fn advance(mode: Mode, control: &mut Control, r: &mut [u32; 16], memory: &mut [u8]) -> Mode
    requires { Step.asleep_or_stopped mode ≡ false }
    ensures { Advances mode control.old r.old memory.old result control.new r.new memory.new }
{
    let at = control.pc;
    let Some(word) = Word::load(memory, at) else {
        let saved = mode.target_or(at);
        return exceptions::enter(exceptions::ADDRESS_ERROR, saved, control, r, memory);
    };
    let meaning = decoder::decode(word as u16);
    let flow = dispatch::attempt(meaning, mode.is_slot(), control, r, memory);
    settle(flow, mode, control, r, memory)
}

fn settle(
    flow: Flow,
    mode: Mode,
    control: &mut Control,
    r: &mut [u32; 16],
    memory: &mut [u8],
) -> Mode
    requires { Admits mode flow }
    ensures { Settles flow mode control.old r.old memory.old result control.new r.new memory.new }
{
    let at = control.pc;
    let next = mode.target_or(at.wrapping_add(2));
    match flow {
        Flow::Next => {
            control.pc = next;
            Mode::Running
        }
        Flow::Jump(target) => {
            control.pc = target;
            Mode::Running
        }
        Flow::Delay(target) => {
            control.pc = next;
            Mode::Slot(target)
        }
        Flow::Sleep => {
            control.pc = next;
            Mode::Asleep
        }
        Flow::Trap(number) => exceptions::enter(number, next, control, r, memory),
        Flow::Fault => exceptions::enter(exceptions::ADDRESS_ERROR, next, control, r, memory),
        Flow::Illegal => {
            let number = illegal_number(mode);
            let saved = mode.target_or(at);
            exceptions::enter(number, saved, control, r, memory)
        }
    }
}

fn illegal_number(mode: Mode) -> u8
    ensures { result ≡ Step.illegal_number mode }
{
    if mode.is_slot() {
        return exceptions::ILLEGAL_SLOT;
    }
    exceptions::GENERAL_ILLEGAL
}
