// Biquads on i32 with coefficients of F fraction bits: direct form 1 with wide outputs, and with error feedback.
// Port of `DirectForm1Wide` and `DirectForm1Dither` of the crate's iir/biquad.rs. Callers cite specs/Forms (a step by
// document 01) and specs/Answers (every call by its number, state and answer). What the error feedback keeps stands in
// crate dither_error.

#![tactic(auto)]

pub mod coefficients;
pub mod dither;
mod form;
pub mod wide;
