// The first line that writes an address again (document 02, request One: 13).
ghost use Rattle.std.specs.Prelude.{◌≡◌, ◌+◌, ◌≤◌, length};
ghost use Rattle.srecord.specs.Load.{records};
ghost use Rattle.srecord.specs.Promises as Promises;
ghost use Rattle.srecord.specs.Promises.{AllRead, Finds, writes_in};

use crate::marks::{Marks, WINDOW};
use crate::records::Summary;
use crate::{marks, records};

// Marks the addresses that a line's data go to from `low` on, and answers whether one was marked already.
fn mark_line(marks: &mut Marks, low: usize, line: Option<Summary>) -> bool
    requires { low ≤ 16777216 }
    ensures { Promises.Marks marks.old (writes_in low line) result marks.new }
{
    let Some(r) = line else {
        return false;
    };
    let begin = r.address as usize;
    let end = begin + r.length as usize;
    if end <= low || low + WINDOW <= begin {
        return false;
    }
    let from = begin.saturating_sub(low);
    let to = (end - low).min(WINDOW);
    marks::mark(marks, from, to)
}

// The first of `limit` lines that writes again an address in the window at `low`.
fn again_in(text: &[u8], limit: usize, low: usize) -> Option<usize>
    requires { (low ≤ 16777216) × AllRead (records text.now) limit }
    ensures { Finds (records text.now) limit low (low + 229376) result }
{
    let mut marks: Marks = [0; 28672];
    for (n, line) in text
        .split_inclusive(|b| *b == b'\n')
        .take(limit)
        .enumerate()
    {
        if mark_line(&mut marks, low, records::span(line)) {
            return Some(n);
        }
    }
    None
}

// Window by window: each leaves no more lines for the next ones to look at.
pub fn first_again(text: &[u8], size: usize, limit: usize) -> Option<usize>
    requires { (size ≤ 16777216) × AllRead (records text.now) limit }
    ensures { Finds (records text.now) limit 0 size result }
{
    let mut first = None;
    for low in (0..size).step_by(WINDOW) {
        first = again_in(text, first.unwrap_or(limit), low).or(first);
    }
    first
}
