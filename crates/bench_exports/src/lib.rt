// The filters as bench/ links them beside the Rust: numbers and lent slices alone, each block from a fresh filter.
// A function hands its call on, so its promise is the call's.

#![tactic(auto)]

pub mod decimators;
pub mod filters;
pub mod words_and_loops;
