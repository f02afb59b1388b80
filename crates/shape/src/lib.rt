// What a decimator's or interpolator's numbers say, whatever its words: refusals and counts (`numbers`), gains
// (`questions`) and what a block answers (`runs`). The promises cite the rules of the crate sums (specs/State,
// Calls and Runs there) through specs/Answers here, where each answer has one definition by number and value.

#![tactic(auto)]

pub mod numbers;
mod powers;
pub mod questions;
pub mod runs;
