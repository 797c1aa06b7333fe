// The control registers, and where an instruction leads.
ghost use Rattle.std.specs.Prelude.{◌≡◌, ◌/◌, ◌%◌, ◌^◌};
ghost use Rattle.instructions.specs.Promises as Promises;
ghost use Rattle.instructions.specs.State as State;

use decoder::ControlRegister;
use divide::Bits;

// The control registers (document 000, section 2.2) and system registers (2.3).
#[derive(Clone, Copy, Debug, PartialEq, Eq)]
pub struct Control {
    pub pc: u32,
    pub sr: u32,
    pub gbr: u32,
    pub vbr: u32,
    pub pr: u32,
    pub mach: u32,
    pub macl: u32,
}

impl Control {
    // M, Q, I, S and T; every other bit of SR is zero (document 01, "State").
    pub const SR_MASK: u32 = 0x3f3;

    // What LDC and LDS write. SR takes its mask (document 01, "Instructions with corners").
    pub fn set_register(&mut self, register: ControlRegister, value: u32)
        ensures { self.new ≡ Promises.with_control_register register value self.old }
    {
        match register {
            ControlRegister::Gbr => self.gbr = value,
            ControlRegister::Sr => self.sr = value & Self::SR_MASK,
            ControlRegister::Vbr => self.vbr = value,
            ControlRegister::Mach => self.mach = value,
            ControlRegister::Macl => self.macl = value,
            ControlRegister::Pr => self.pr = value,
        }
    }

    // What STC and STS read.
    pub fn register(&self, register: ControlRegister) -> u32
        ensures { result ≡ Promises.control_register register self.now }
    {
        match register {
            ControlRegister::Gbr => self.gbr,
            ControlRegister::Sr => self.sr,
            ControlRegister::Vbr => self.vbr,
            ControlRegister::Mach => self.mach,
            ControlRegister::Macl => self.macl,
            ControlRegister::Pr => self.pr,
        }
    }

    // The bits of SR that instructions read, and those that they write.
    pub fn t_bit(&self) -> u32
        ensures { result ≡ self.now.sr % 2 }
    {
        self.sr % 2
    }

    pub fn s_bit(&self) -> u32
        ensures { result ≡ self.now.sr / 2 % 2 }
    {
        self.sr / 2 % 2
    }

    pub fn q_bit(&self) -> u32
        ensures { result ≡ self.now.sr / 2 ^ 8 % 2 }
    {
        self.sr / 256 % 2
    }

    pub fn m_bit(&self) -> u32
        ensures { result ≡ self.now.sr / 2 ^ 9 % 2 }
    {
        self.sr / 512 % 2
    }

    pub fn set_t(&mut self, t: u32)
        ensures { self.new ≡ State.with_t t self.old }
    {
        self.sr = self.sr / 2 * 2 + t % 2;
    }

    pub fn set_mqt(&mut self, bits: Bits)
        ensures { self.new ≡ State.with_mqt bits.m bits.q bits.t self.old }
    {
        self.sr = bits.m % 2 * 512 + bits.q % 2 * 256 + self.sr / 2 % 128 * 2 + bits.t % 2;
    }
}

// Where an instruction leads. It does not know the PC's next value or the mode: what settles a step does.
#[derive(Clone, Copy, Debug, PartialEq, Eq)]
pub enum Flow {
    Next,
    // BF and BT, taken.
    Jump(u32),
    // A taken delayed branch, to its target.
    Delay(u32),
    Sleep,
    // TRAPA, with its vector number.
    Trap(u8),
    // A data access that is misaligned or outside: the instruction has no effect at all.
    Fault,
    // An undefined word, or in a slot an instruction that rewrites the PC.
    Illegal,
}
