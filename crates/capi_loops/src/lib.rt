// Clamps and phase-locked loops for C and Rust to link, lent field by field as in capi_filters.
// Kept: C lends each field by itself, so the calls and what gathers and spreads a state take as many references.

#![tactic(auto)]

pub mod loops;
pub mod questions;
mod states;
