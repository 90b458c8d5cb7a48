// What the program's arguments mean, and which words it says: each function against one definition of specs/.
// The programs print what these say, and nothing of their own.
#![tactic(auto)]

pub mod arguments;
pub mod hex;
pub mod words;
