// From an image to the runner's text (document 01, "The runner"), in a lent buffer.
#![tactic(auto)]

mod lines;
mod outcomes;

ghost use Rattle.std.specs.Prelude.{◌≡◌, length};
ghost use Rattle.report.specs.Report.{Reports, Roomy};

use text::Page;

// A buffer with room for every report, all zeros.
pub fn buffer() -> [u8; 347]
    ensures value { 347 ≡ length result }
    ensures roomy { Roomy result }
{
    [0; 347]
}

// Runs the image in memory, puts its report at the buffer's start, as much of it as there is room for, and answers how many bytes
// that is.
pub fn report(memory: &mut [u8], buffer: &mut [u8]) -> usize
    ensures { Reports memory.old memory.new buffer.old buffer.new result }
{
    let outcome = outcomes::outcome(memory);
    let mut page = Page { buffer, place: 0 };
    lines::answer_text(&mut page, outcome);
    page.place
}
