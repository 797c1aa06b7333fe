// Prints, for each row of the code table (document 000, Table 5.9), its pattern, how many of the 65,536 words decode to it, and
// the first and the last of them; then how many words are defined and undefined.
#![tactic(auto)]

use std::io;

const PATTERNS: [&str; 142] = [
    "0111nnnniiiiiiii",
    "0011nnnnmmmm1100",
    "0011nnnnmmmm1110",
    "0011nnnnmmmm1111",
    "11001001iiiiiiii",
    "0010nnnnmmmm1001",
    "11001101iiiiiiii",
    "10001011dddddddd",
    "10001111dddddddd",
    "1010dddddddddddd",
    "0000mmmm00100011",
    "1011dddddddddddd",
    "0000mmmm00000011",
    "10001001dddddddd",
    "10001101dddddddd",
    "0000000000101000",
    "0000000000001000",
    "10001000iiiiiiii",
    "0011nnnnmmmm0000",
    "0011nnnnmmmm0011",
    "0011nnnnmmmm0111",
    "0011nnnnmmmm0110",
    "0011nnnnmmmm0010",
    "0100nnnn00010101",
    "0100nnnn00010001",
    "0010nnnnmmmm1100",
    "0010nnnnmmmm0111",
    "0000000000011001",
    "0011nnnnmmmm0100",
    "0011nnnnmmmm1101",
    "0011nnnnmmmm0101",
    "0100nnnn00010000",
    "0110nnnnmmmm1110",
    "0110nnnnmmmm1111",
    "0110nnnnmmmm1100",
    "0110nnnnmmmm1101",
    "0100mmmm00101011",
    "0100mmmm00001011",
    "0100mmmm00011110",
    "0100mmmm00001110",
    "0100mmmm00101110",
    "0100mmmm00010111",
    "0100mmmm00000111",
    "0100mmmm00100111",
    "0100mmmm00001010",
    "0100mmmm00011010",
    "0100mmmm00101010",
    "0100mmmm00000110",
    "0100mmmm00010110",
    "0100mmmm00100110",
    "0000nnnnmmmm1111",
    "0100nnnnmmmm1111",
    "1110nnnniiiiiiii",
    "0110nnnnmmmm0011",
    "11000100dddddddd",
    "10000100mmmmdddd",
    "0000nnnnmmmm1100",
    "0110nnnnmmmm0100",
    "0110nnnnmmmm0000",
    "11000000dddddddd",
    "10000000nnnndddd",
    "0000nnnnmmmm0100",
    "0010nnnnmmmm0100",
    "0010nnnnmmmm0000",
    "11000110dddddddd",
    "1101nnnndddddddd",
    "0101nnnnmmmmdddd",
    "0000nnnnmmmm1110",
    "0110nnnnmmmm0110",
    "0110nnnnmmmm0010",
    "11000010dddddddd",
    "0001nnnnmmmmdddd",
    "0000nnnnmmmm0110",
    "0010nnnnmmmm0110",
    "0010nnnnmmmm0010",
    "11000101dddddddd",
    "1001nnnndddddddd",
    "10000101mmmmdddd",
    "0000nnnnmmmm1101",
    "0110nnnnmmmm0101",
    "0110nnnnmmmm0001",
    "11000001dddddddd",
    "10000001nnnndddd",
    "0000nnnnmmmm0101",
    "0010nnnnmmmm0101",
    "0010nnnnmmmm0001",
    "11000111dddddddd",
    "0000nnnn00101001",
    "0000nnnnmmmm0111",
    "0010nnnnmmmm1111",
    "0010nnnnmmmm1110",
    "0110nnnnmmmm1011",
    "0110nnnnmmmm1010",
    "0000000000001001",
    "0110nnnnmmmm0111",
    "11001011iiiiiiii",
    "0010nnnnmmmm1011",
    "11001111iiiiiiii",
    "0100nnnn00100100",
    "0100nnnn00100101",
    "0100nnnn00000100",
    "0100nnnn00000101",
    "0000000000101011",
    "0000000000001011",
    "0000000000011000",
    "0100nnnn00100000",
    "0100nnnn00100001",
    "0100nnnn00000000",
    "0100nnnn00001000",
    "0100nnnn00011000",
    "0100nnnn00101000",
    "0100nnnn00000001",
    "0100nnnn00001001",
    "0100nnnn00011001",
    "0100nnnn00101001",
    "0000000000011011",
    "0000nnnn00010010",
    "0000nnnn00000010",
    "0000nnnn00100010",
    "0100nnnn00010011",
    "0100nnnn00000011",
    "0100nnnn00100011",
    "0000nnnn00001010",
    "0000nnnn00011010",
    "0000nnnn00101010",
    "0100nnnn00000010",
    "0100nnnn00010010",
    "0100nnnn00100010",
    "0011nnnnmmmm1000",
    "0011nnnnmmmm1010",
    "0011nnnnmmmm1011",
    "0110nnnnmmmm1000",
    "0110nnnnmmmm1001",
    "0100nnnn00011011",
    "11000011iiiiiiii",
    "11001000iiiiiiii",
    "0010nnnnmmmm1000",
    "11001100iiiiiiii",
    "11001010iiiiiiii",
    "0010nnnnmmmm1010",
    "11001110iiiiiiii",
    "0010nnnnmmmm1101",
];

// The words of a row: how many they are, the first and the last.
#[derive(Clone, Copy, Default)]
struct Words {
    count: usize,
    first: Option<u16>,
    last: Option<u16>,
}

impl Words {
    fn add(&mut self, word: u16) {
        self.count = self.count.wrapping_add(1);
        self.first = self.first.or(Some(word));
        self.last = Some(word);
    }
}

fn main(rt: HostRuntime) -> io::Result<()> {
    let mut table = [Words::default(); PATTERNS.len()];
    let mut undefined = Words::default();
    // A word whose row stands outside the table would be missing in both totals.
    for word in 0..=u16::MAX {
        match rows::row_number(decoder::decode(word)) {
            Some(row) => {
                if let Some(words) = table.get_mut(row as usize) {
                    words.add(word);
                }
            }
            None => undefined.add(word),
        }
    }
    let mut defined: usize = 0;
    for (pattern, words) in PATTERNS.iter().zip(table) {
        print_row(&rt, pattern, words)?;
        defined = defined.wrapping_add(words.count);
    }
    println!(rt; "defined {defined}")?;
    println!(rt; "undefined {}", undefined.count)
}

fn print_row(rt: &impl Print, pattern: &str, words: Words) -> io::Result<()> {
    print!(rt; "{pattern} {}", words.count)?;
    for word in [words.first, words.last].iter().flatten() {
        print!(rt; " {word:04x}")?;
    }
    println!(rt)
}
