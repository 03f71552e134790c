// Histograms: pixels counted by level, and what is read of the counts.
#![tactic(auto)]

pub mod histogram;
pub mod sums;
pub mod tally;
