// The double-precision biquad: coefficients and their makers, and steps and blocks of direct form 1 and
// direct form 2 transposed, with and without clamp. Port of the f64 part of the crate's iir/biquad.rs.
// Every operation is rounded once, in the order written. Callers cite specs/Coefficients (makers, gain, offset),
// specs/Forms (sums, clamp, states) and specs/Answers (refusals 41 and 42); proofs/Constants, ConstantBlocks,
// Clamping and Steps say what the constants and the clamp do and that a block is its steps.

#![tactic(auto)]

pub mod biquad;
pub mod biquad_clamp;
pub mod direct_form1;
pub mod direct_form2_transposed;
mod form;
pub mod pair;
