// A batch: a line for each calendar, and the counts.
// Standard input is read in blocks, so that a list of any length is taken.
#![tactic(auto)]

pub mod batch;
