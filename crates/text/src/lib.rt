// Text, written into a lent buffer; and hexadecimal, read from one.
#![tactic(auto)]

mod digits;
mod pages;
mod reading;

pub use digits::Case;
pub use pages::Page;
pub use reading::{Letters, digit_value, hex_value, is_digit, value_of_digit};
