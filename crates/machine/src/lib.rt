// The machine: its registers and its mode (document 01, "State"), what a call answers, and the calls.
#![tactic(auto)]

mod calls;
mod exceptions;
mod run_loop;
mod steps;

ghost use Rattle.std.specs.Prelude.{◌≡◌};
ghost use Rattle.memory.specs.Lengths.{bad_length_number};
ghost use Rattle.machine.specs.Calls.{refusal_number};
ghost use Rattle.machine.specs.Exceptions as Exceptions;
ghost use Rattle.machine.specs.Situation.{reason_number};
ghost use Rattle.machine.specs.Step as Step;

pub use calls::{reset, run, step};
use instructions::Control;
use memory::BadLength;

// Why a machine stopped, by its number (document 01, "Exceptions").
#[derive(Clone, Copy, Debug, PartialEq, Eq)]
pub enum Stop {
    // R15 is not a multiple of 4, or a push would fall outside.
    Push = 1,
    // The vector's address is misaligned or outside.
    Vector = 2,
    // A delayed branch is taken while another's target still waits.
    Branch = 3,
}

impl From<Stop> for u32 {
    ghost from_gives = { λ why number. number ≡ reason_number why };

    fn from(why: Stop) -> u32 {
        why as u32
    }
}

// Exactly one of: running; in a slot, with the target; asleep; stopped, with a reason.
#[derive(Clone, Copy, Debug, PartialEq, Eq)]
pub enum Mode {
    Running,
    Slot(u32),
    Asleep,
    Stopped(Stop),
}

impl Mode {
    // "Asleep or stopped: nothing happens and no step is counted." (document 01, "One step")
    fn is_halted(self) -> bool
        ensures { result ≡ Step.asleep_or_stopped self }
    {
        matches!(self, Mode::Asleep | Mode::Stopped(_))
    }

    fn is_slot(self) -> bool
        ensures { result ≡ Step.in_slot self }
    {
        matches!(self, Mode::Slot(_))
    }

    // In a slot the target.
    fn target_or(self, other: u32) -> u32
        ensures { result ≡ Exceptions.target_or self other }
    {
        match self {
            Mode::Slot(target) => target,
            _ => other,
        }
    }
}

#[derive(Clone, Copy, Debug, PartialEq, Eq)]
pub struct Machine {
    pub r: [u32; 16],
    pub control: Control,
    pub mode: Mode,
}

// Why a call is refused, by its number (document 01, "Refusals of a call").
#[derive(Clone, Copy, Debug, PartialEq, Eq)]
pub enum Refusal {
    // The memory's length is not a multiple of 4.
    Ragged = 1,
    // The length is below 1,024 or above 16,777,216.
    Size = 2,
    // SR has a bit outside its mask.
    Status = 3,
}

impl From<BadLength> for Refusal {
    ghost from_gives = { λ bad why. refusal_number why ≡ bad_length_number bad };

    fn from(bad: BadLength) -> Refusal {
        match bad {
            BadLength::Ragged => Refusal::Ragged,
            BadLength::Size => Refusal::Size,
        }
    }
}

impl From<Refusal> for u32 {
    ghost from_gives = { λ why number. number ≡ refusal_number why };

    fn from(why: Refusal) -> u32 {
        why as u32
    }
}

// What a call that is not refused leaves, and how many steps it took.
#[derive(Clone, Copy, Debug, PartialEq, Eq)]
pub struct Answer {
    pub machine: Machine,
    pub steps: u32,
}

// Why a call is refused, with the machine as given: a reset, which is given none, hands out the blank one.
#[derive(Clone, Copy, Debug, PartialEq, Eq)]
pub struct Refused {
    pub refusal: Refusal,
    pub machine: Machine,
}
