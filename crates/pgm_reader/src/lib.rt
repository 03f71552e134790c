// Reading of binary grey maps (PGM, `P5`).
#![tactic(auto)]

pub mod fault;
mod header;
pub mod read;
mod samples;
