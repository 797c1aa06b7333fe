// The lines of a report.
#![tactic(auto, using(text::proofs::Writes::nothing, text::proofs::Writes::write_append), unfolding(text::specs::Writing::write, crate::specs::Report::state_line, crate::specs::Report::mode_text, crate::specs::Report::pc_line, crate::specs::Report::target_line, crate::specs::Report::value_text, crate::specs::Report::register_line, crate::specs::Report::control_lines))]

ghost use Rattle.std.specs.Prelude.{◌++◌, IfErr, IfOk};
ghost use Rattle.machine.specs.Calls.{refusal_number};
ghost use Rattle.report.specs.Report as Report;
ghost use Rattle.text.specs.Text as Text;
ghost use Rattle.text.specs.Writing.{Writes};

use instructions::Control;
use machine::{Answer, Machine, Mode, Refusal, Refused};
use text::Page;

pub fn answer_text(page: &mut Page, outcome: Result<Answer, Refused>)
    ensures ran { IfOk outcome (λ answer. Writes (Report.machine_text answer.machine answer.steps) page.old page.new) }
    ensures refused { IfErr outcome (λ refused. Writes (Report.refusal_text (refusal_number refused.refusal)) page.old page.new) }
{
    match outcome {
        Ok(answer) => machine_text(page, answer.machine, answer.steps),
        Err(refused) => refusal_text(page, refused.refusal),
    }
}

fn refusal_text(page: &mut Page, refusal: Refusal)
    ensures { Writes (Report.refusal_text (refusal_number refusal)) page.old page.new }
{
    page.write(b"refused ");
    page.decimal(1, u32::from(refusal));
    page.write(b"\n");
}

#[tactic(auto, using(text::proofs::Writes::write_append), unfolding(crate::specs::Report::machine_text))]
fn machine_text(page: &mut Page, machine: Machine, steps: u32)
    ensures { Writes (Report.machine_text machine steps) page.old page.new }
{
    state_line(page, machine.mode, steps);
    pc_line(page, machine.control.pc, machine.control.sr);
    target_line(page, machine.mode);
    general_lines(page, &machine.r);
    control_lines(page, &machine.control);
}

fn state_line(page: &mut Page, mode: Mode, steps: u32)
    ensures { Writes (Report.state_line mode steps) page.old page.new }
{
    page.write(b"state ");
    mode_text(page, mode);
    page.write(b" steps ");
    page.decimal(10, steps);
    page.write(b"\n");
}

fn mode_text(page: &mut Page, mode: Mode)
    ensures { Writes (Report.mode_text mode) page.old page.new }
{
    match mode {
        Mode::Running => page.write(b"running"),
        Mode::Slot(_) => page.write(b"slot"),
        Mode::Asleep => page.write(b"asleep"),
        Mode::Stopped(reason) => {
            page.write(b"stopped ");
            page.decimal(1, u32::from(reason));
        }
    }
}

fn pc_line(page: &mut Page, pc: u32, sr: u32)
    ensures { Writes (Report.pc_line pc sr) page.old page.new }
{
    page.write(b"pc ");
    page.hex(8, pc);
    page.write(b" sr ");
    page.hex(8, sr);
    page.write(b"\n");
}

fn target_line(page: &mut Page, mode: Mode)
    ensures { Writes (Report.target_line mode) page.old page.new }
{
    if let Mode::Slot(target) = mode {
        page.write(b"target ");
        page.hex(8, target);
        page.write(b"\n");
    }
}

#[tactic(auto, using(text::proofs::Writes::nothing, text::proofs::Writes::write_append), unfolding(crate::specs::Report::general_lines))]
fn general_lines(page: &mut Page, r: &[u32; 16])
    ensures { Writes (Report.general_lines 16 r.now) page.old page.new }
{
    for (k, value) in r.iter().enumerate() {
        general_line(page, k as u32, *value);
    }
}

fn general_line(page: &mut Page, k: u32, value: u32)
    ensures { Writes (Report.register_line (Text.ascii "r" ++ Text.decimal 2 k) value) page.old page.new }
{
    if value != 0 {
        page.write(b"r");
        page.decimal(2, k);
        value_text(page, value);
    }
}

fn control_lines(page: &mut Page, control: &Control)
    ensures { Writes (Report.control_lines control.now) page.old page.new }
{
    register_line(page, b"gbr", control.gbr);
    register_line(page, b"vbr", control.vbr);
    register_line(page, b"pr", control.pr);
    register_line(page, b"mach", control.mach);
    register_line(page, b"macl", control.macl);
}

fn register_line(page: &mut Page, name: &[u8], value: u32)
    ensures { Writes (Report.register_line name.now value) page.old page.new }
{
    if value != 0 {
        page.write(name);
        value_text(page, value);
    }
}

// What follows a register's name.
fn value_text(page: &mut Page, value: u32)
    ensures { Writes (Report.value_text value) page.old page.new }
{
    page.write(b" ");
    page.hex(8, value);
    page.write(b"\n");
}
