// The meaning of a calendar: its events and free-busy blocks, or the first fault with its line.
// Each function equals one definition of specs/.
#![tactic(auto)]

pub mod faults;
pub mod period_list;

// The first line whose value is refused: refusal 8 or 9, at this line.
#[derive(Clone, Copy, PartialEq, Eq)]
pub enum LineError {
    Unsupported(usize),
    Bad(usize),
}

// A refusal, and the line at fault, 0 where it has none.
// Its number stays a number: the table of document 01, the C interface and the theorems speak of numbers.
#[derive(Clone, Copy, PartialEq, Eq)]
pub struct Refusal {
    pub number: u8,
    pub line: usize,
}
