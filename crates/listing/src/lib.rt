// The listing of a file, and the line of a fault.
#![tactic(auto)]

pub mod fault;
mod lines;
pub mod list;
