// What each size does with its own bytes, where they lie inside the memory. No other crate can name this trait: those above call the
// functions of `Access`, which ask for nothing.
ghost use Rattle.std.specs.Prelude.{◌≡◌, ◌+◌, ◌≤◌, ℕ, length};
ghost use Rattle.memory.specs.Access.{value_at, written};

pub trait Width {
    ghost width: { ℕ };

    // The number that the bytes at a place make. It is not extended: a byte is below H'100, a word below H'10000.
    fn read(memory: &[u8], at: usize) -> u32
        requires { at + width ≤ length memory.now }
        ensures { result ≡ value_at width memory.now at };

    fn write(memory: &mut [u8], at: usize, value: u32)
        requires { at + width ≤ length memory.old }
        ensures { memory.new ≡ written width memory.old at value };
}
