// Document 01's decimator and interpolator on the words of the crate lent, i32 and i64: `Cic`, a state with its arrays, every entry
// point refusing what it must and promising the rest. Steps and blocks are those of `LentCic`, on the state's own arrays.
// The promises cite the rules of the crate sums (specs/State, Calls and Runs there) through specs/Reading and
// specs/Answers here and specs/Answers of the crates lent and shape: `state_of` reads a `Cic` as the rules' state,
// `cic_of` goes back, and each answer has one definition by number and value.

#![tactic(auto)]

pub mod questions;
pub mod runs;
pub mod settling;
pub mod state;
pub mod steps;
pub mod word;
