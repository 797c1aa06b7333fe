// Marks, a bit each, on addresses of a part of the memory.
ghost use Rattle.std.specs.Prelude.{◌≤◌};
ghost use Rattle.srecord.specs.Promises as Promises;

// The addresses that are marked at once, a bit each: the marks stay on the stack, with all else in less than 32 KiB.
pub const WINDOW: usize = 229376;

pub type Marks = [u8; 28672];

// Marks those from `low` to below `high`, up to the first that is marked already, and answers whether there is one.
pub fn mark(marks: &mut Marks, low: usize, high: usize) -> bool
    requires { (low ≤ high) × (high ≤ 229376) }
    ensures { Promises.Marks marks.old (Promises.between low high) result marks.new }
{
    for i in low..high {
        let old = marks[i / 8];
        let bit = i % 8;
        if (old >> bit) % 2 == 1 {
            return true;
        }
        marks[i / 8] = old + (1u8 << bit);
    }
    false
}
