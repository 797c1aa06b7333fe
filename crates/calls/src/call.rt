// A call of one of the machine's operations, with its line.
use crate::given::Situation;
use crate::lines;
use machine::{Answer, Machine, Refused};
use std::io;

#[derive(Clone, Copy)]
pub enum Call {
    Reset,
    Step,
    // With its budget.
    Run(u32),
}

impl Call {
    // Gives what the call left.
    pub fn make(self, rt: &impl Print, given: Situation) -> io::Result<Situation> {
        let mut left = given;
        let lent = given.lent.min(left.image.len());
        let answer = self.answer(given.machine, &mut left.image[..lent]);
        lines::handed(rt, self, &given)?;
        left.machine = match answer {
            Ok(Answer { machine, steps }) => {
                print!(rt; "accepted, steps {steps}, ")?;
                machine
            }
            Err(Refused { refusal, machine }) => {
                print!(rt; "refused {}, steps 0, ", u32::from(refusal))?;
                machine
            }
        };
        lines::machine_left(rt, self, &left.machine, &given.machine)?;
        lines::memory_left(rt, &left.image, &given.image)?;
        Ok(left)
    }

    fn answer(self, given: Machine, memory: &mut [u8]) -> Result<Answer, Refused> {
        match self {
            Call::Reset => machine::reset(memory),
            Call::Step => machine::step(given, memory),
            Call::Run(budget) => machine::run(given, memory, budget),
        }
    }
}
