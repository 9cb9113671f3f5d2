// Decimal numbers, read and printed.
#![tactic(auto)]

mod adding;
mod printing;
mod reading;

pub use adding::{Decimal, put_run};
pub use printing::{Numeral, put_number, put_numerals, put_one, put_signed, put_space};
pub use reading::{below, numbers_in};

// A number: whether a `-` stands before its digits, and its size. The sign stands beside it, since `-0` is no `0` (`number_in`).
#[derive(Clone, Copy)]
pub struct Number {
    pub minus: bool,
    pub size: u64,
}

// How many numbers a text has, and the first nine of them: none where what is written is no number. A count beside a list, since there
// is no heap, and `numbers_read` counts past the ninth.
#[derive(Clone, Copy)]
pub struct Numbers {
    pub count: usize,
    pub list: [Option<Number>; 9],
}
