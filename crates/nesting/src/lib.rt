// The component tree of a file, and whether its nesting is right: definitions and their theorems.
// The code that reads them is in the crate structure.
#![tactic(auto)]

// What is wrong with lines or nesting.
#[derive(Clone, Copy, PartialEq, Eq)]
pub enum StructureError {
    // The first badly formed line.
    BadLine(usize),
    // Each line is well formed, and this one breaks the nesting.
    BadNesting(usize),
}
