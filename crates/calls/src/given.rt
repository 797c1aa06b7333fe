// What the calls are handed.
use instructions::Control;
use machine::{Machine, Mode};
use memory::{Access, Long, Word};

// A machine, and the memory of which the first bytes, `lent` of them, are lent to it.
#[derive(Clone, Copy)]
pub struct Situation {
    pub image: [u8; 1024],
    pub lent: usize,
    pub machine: Machine,
}

impl Situation {
    // The blank machine, and document 01's image ("The runner").
    pub fn from_blank() -> Situation {
        let nothing = Situation {
            image: [0; 1024],
            lent: 1024,
            machine: Machine::blank(),
        };
        nothing
            .with::<Long>(0, 0x200)
            .with::<Long>(4, 0x400)
            .with::<Word>(0x200, 0xe005)
            .with::<Word>(0x202, 0x001b)
    }

    // Document 01's image, and a machine at its first instruction.
    pub fn marked(sr: u32, mode: Mode) -> Situation {
        Situation {
            machine: marked_machine(0x200, sr, 0, 0x400, mode),
            ..Situation::from_blank()
        }
    }

    // The undefined word in the place of the first instruction, with the vectors 4, 6 and 9 of VBR H'80.
    pub fn undefined(pc: u32, vbr: u32, r15: u32, mode: Mode) -> Situation {
        let given = Situation::from_blank()
            .with::<Word>(0x200, 0xffff)
            .with::<Long>(0x90, 0x300)
            .with::<Long>(0x98, 0x310)
            .with::<Long>(0xa4, 0x320);
        Situation {
            machine: marked_machine(pc, 0xf0, vbr, r15, mode),
            ..given
        }
    }

    // An address outside the image, which no situation here has, changes nothing.
    pub fn with<A: Access>(mut self, at: u32, value: u32) -> Situation {
        let _ = A::store(&mut self.image, at, value);
        self
    }

    pub fn lending(self, lent: usize) -> Situation {
        Situation { lent, ..self }
    }
}

// Each of the other registers has a value of its own, so that one which a call loses shows.
fn marked_machine(pc: u32, sr: u32, vbr: u32, r15: u32, mode: Mode) -> Machine {
    let mut r = OTHERS;
    r[15] = r15;
    let control = Control {
        pc,
        sr,
        gbr: 0x20,
        vbr,
        pr: 0x21,
        mach: 0x22,
        macl: 0x23,
    };
    Machine { r, control, mode }
}

const OTHERS: [u32; 16] = [
    0x10, 0x11, 0x12, 0x13, 0x14, 0x15, 0x16, 0x17, 0x18, 0x19, 0x1a, 0x1b, 0x1c, 0x1d, 0x1e, 0x1f,
];
