// Document 01's decimator and interpolator of a caller that keeps the arrays: `LentCic` is a state's numbers, and its steps and blocks take the
// arrays lent. Words are those of the trait `Word`, i32 and i64. The promises cite the rules of the crate sums (specs/Calls, Counted and
// Runs there) of the state that specs/Reading's `counted` puts together, through specs/Answers here and in the crate shape.

#![tactic(auto)]

mod cascade;
mod decimating;
mod interpolating;
pub mod runs;
pub mod state;
pub mod steps;
mod stretches;
pub mod word;
