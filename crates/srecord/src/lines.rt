// A line of a text (document 02, request One).
ghost use Rattle.std.specs.Prelude.{◌≡◌, option_copied};
ghost use Rattle.srecord.specs.Lines.{content};

// What stands before a line's end.
#[tactic(auto, unfolding(crate::specs::Lines::content))]
pub fn content(line: &[u8]) -> Option<&[u8]>
    ensures { option_copied result ≡ content line.now }
{
    match line {
        [content @ .., b'\r', b'\n'] | [content @ .., b'\n'] => Some(content),
        _ => None,
    }
}
