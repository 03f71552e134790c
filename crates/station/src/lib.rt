// The station: pixels in hand, the last cut set, and a distance rule.
#![tactic(auto)]

pub mod fault;
pub mod station;
#[cfg(test)]
mod tests;
