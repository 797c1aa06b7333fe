// The branches (document 000, sections 6.6 to 6.13, 6.25 and 6.26): what they do to PR, and where they lead.
ghost use Rattle.std.specs.Prelude.{◌≡◌, ℕ, List, if◌then◌else◌};
ghost use Rattle.instructions.specs.Promises.{Performs};

use arithmetic::addresses;
use decoder::{Branch, BranchIf, BranchTo, Meaning};
use instructions::{Control, Flow};

#[tactic(auto, unfolding(instructions::specs::Execute::execute))]
pub fn branch_if(operation: BranchIf, d: u8, control: &Control) -> Flow
    ensures { (r memory : List ℕ) → Performs (Meaning.BranchIf operation d) control.now r memory result control.now r memory }
{
    let target = addresses::branch::<0x80>(control.pc, d as u32);
    let t = control.t_bit();
    match operation {
        BranchIf::Bf => taken_if(t == 0, Flow::Jump(target)),
        BranchIf::BfS => taken_if(t == 0, Flow::Delay(target)),
        BranchIf::Bt => taken_if(t == 1, Flow::Jump(target)),
        BranchIf::BtS => taken_if(t == 1, Flow::Delay(target)),
    }
}

fn taken_if(test: bool, taken: Flow) -> Flow
    ensures { result ≡ (if test then taken else Flow.Next) }
{
    if test { taken } else { Flow::Next }
}

#[tactic(auto, unfolding(instructions::specs::Execute::execute))]
pub fn branch(operation: Branch, d: u16, control: &mut Control) -> Flow
    ensures { (r memory : List ℕ) → Performs (Meaning.Branch operation d) control.old r memory result control.new r memory }
{
    let pc = control.pc;
    let target = addresses::branch::<0x800>(pc, d as u32);
    match operation {
        Branch::Bra => Flow::Delay(target),
        Branch::Bsr => {
            control.pr = addresses::following(pc);
            Flow::Delay(target)
        }
    }
}

#[tactic(auto, unfolding(instructions::specs::Execute::execute))]
pub fn branch_to(operation: BranchTo, m: u8, control: &mut Control, r: &[u32; 16]) -> Flow
    ensures { (memory : List ℕ) → Performs (Meaning.BranchTo operation m) control.old r.now memory result control.new r.now memory }
{
    let pc = control.pc;
    let from = (m % 16) as usize;
    let a = r[from];
    match operation {
        BranchTo::Braf => Flow::Delay(addresses::far(pc, a)),
        BranchTo::Bsrf => {
            control.pr = addresses::following(pc);
            Flow::Delay(addresses::far(pc, a))
        }
        BranchTo::Jmp => Flow::Delay(a),
        BranchTo::Jsr => {
            control.pr = addresses::following(pc);
            Flow::Delay(a)
        }
    }
}
