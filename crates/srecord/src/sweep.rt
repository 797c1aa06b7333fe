// One sweep over a text's lines: the first that is bad for another reason than an address written twice (document 02, request One).
ghost use Rattle.std.specs.Prelude.{◌≡◌, ◌+◌, ◌^◌, ◌<◌, not, ◌&&◌, if◌then◌else◌, ◌==◌, nat_eq, nat_lt};
ghost use Rattle.memory.specs.Lengths.{first};
ghost use Rattle.srecord.specs.Load.{number_of, records, told, verdict};
ghost use Rattle.srecord.specs.Records.{is_count, record_of};
ghost use Rattle.srecord.specs.Promises as Promises;

use crate::openings::Kind;
use crate::records::Summary;
use crate::{Refusal, Refused, records};

// What is known of the lines so far: data lines, whether one was a closing line, where the last data ended, and whether each began at or
// behind the end of the one before it.
#[derive(Clone, Copy, Debug, PartialEq, Eq)]
pub struct SoFar {
    pub count: usize,
    pub closed: bool,
    pub top: usize,
    pub ordered: bool,
}

impl SoFar {
    // Before the first line.
    fn none() -> Self
        ensures { result ≡ Promises.fresh }
    {
        SoFar {
            count: 0,
            closed: false,
            top: 0,
            ordered: true,
        }
    }
}

// What the sweep answers, the lines before the one that is refused, and whether their data stand in order.
#[derive(Clone, Copy, Debug, PartialEq, Eq)]
pub struct Swept {
    pub verdict: Result<(), Refused>,
    pub passed: usize,
    pub ordered: bool,
}

fn outside(size: usize, r: Summary) -> bool
    ensures { result ≡ (not (r.length == 0) && nat_lt size (r.address + r.length)) }
{
    (r.length != 0) & (size < r.address as usize + r.length as usize)
}

fn wrong_number(count: usize, r: Summary) -> bool
    ensures { result ≡ (is_count r.opening.kind && not (r.address == count)) }
{
    (r.opening.kind == Kind::Count) & (r.address as usize != count)
}

// A record's refusal, address written twice left aside.
fn single(size: usize, s: SoFar, r: Summary) -> Result<(), Refusal>
    ensures { number_of result ≡ first (Promises.single_tests size s.closed s.count r) }
{
    if s.closed {
        return Err(Refusal::Line);
    }
    if !r.checks {
        return Err(Refusal::Check);
    }
    if outside(size, r) {
        return Err(Refusal::Outside);
    }
    if wrong_number(s.count, r) {
        return Err(Refusal::Number);
    }
    Ok(())
}

fn top_after(top: usize, r: Summary) -> usize
    ensures { result ≡ (if nat_eq r.length 0 then top else r.address + r.length) }
{
    if r.length == 0 {
        return top;
    }
    r.address as usize + r.length as usize
}

#[tactic(auto, unfolding(crate::specs::Promises::noted))]
fn noted(s: SoFar, r: Summary) -> SoFar
    requires { s.count + 1 < 2 ^ 64 }
    ensures { result ≡ Promises.noted s r }
{
    let kind = r.opening.kind;
    SoFar {
        count: s.count + (kind == Kind::Data) as usize,
        closed: (kind == Kind::Closing) | s.closed,
        top: top_after(s.top, r),
        ordered: s.ordered & ((r.length == 0) | (s.top <= r.address as usize)),
    }
}

// What is known behind one line more, or why it is refused.
fn behind(size: usize, s: SoFar, line: &[u8]) -> Result<SoFar, Refusal>
    requires { s.count + 1 < 2 ^ 64 }
    ensures { Promises.Behind size s (record_of line.now) result }
{
    let r = records::parse(line).ok_or(Refusal::Line)?;
    single(size, s, r)?;
    Ok(noted(s, r))
}

pub fn sweep(text: &[u8], size: usize) -> Swept
    ensures { Promises.finding_of result ≡ Promises.swept size 0 Promises.fresh (records text.now) }
{
    let mut s = SoFar::none();
    let mut n = 0;
    for line in text.split_inclusive(|b| *b == b'\n') {
        match behind(size, s, line) {
            Ok(after) => s = after,
            Err(refusal) => {
                return Swept {
                    verdict: Err(Refused {
                        refusal,
                        line: n + 1,
                    }),
                    passed: n,
                    ordered: s.ordered,
                };
            }
        }
        n += 1;
    }
    Swept {
        verdict: at_end(s.closed),
        passed: n,
        ordered: s.ordered,
    }
}

fn at_end(closed: bool) -> Result<(), Refused>
    ensures { told result ≡ (if closed then verdict 0 0 else verdict 15 0) }
{
    if closed {
        return Ok(());
    }
    Err(Refused {
        refusal: Refusal::Unclosed,
        line: 0,
    })
}
