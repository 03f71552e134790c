// Cut sets: bands of levels, each painted with a level of its own.
#![tactic(auto)]

pub mod band;
pub mod cut_set;
pub mod table;
