// A short text, put together without a heap.
#![tactic(auto)]

pub mod short;
