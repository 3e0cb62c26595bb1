// Whole numbers in base ten: the kinds of bytes, and what reading a number gives. What a number is, spelled and read, is defined in specs/; `lexer` reads
// numbers, `speller` writes them.
#![tactic(auto)]

// What a byte of a number is, by its range.
#[derive(Clone, Copy, PartialEq)]
pub enum Kind {
    Minus,
    Zero,
    Digit,
    Tab,
    End,
    Other,
}

// The value of a run of digits, and the place behind it.
#[derive(Clone, Copy)]
pub struct Digits {
    pub value: u32,
    pub next: usize,
}
