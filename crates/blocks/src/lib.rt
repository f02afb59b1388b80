// Why a call is refused, and what a filter's one-to-one block of steps is.
// Callers cite `answer` and `number_of` of specs/Refusals, `scan` and `ends` of specs/Scan and `Blocked` of specs/Blocks; their proofs lean
// on proofs/Refusals (answers by number), proofs/Turns (a step a turn), proofs/Chains (a cell a turn), proofs/Carried (a state beside what
// doesn't change) and proofs/Ways (how a call ends).

#![tactic(auto)]

mod filter;
mod refusal;

pub use filter::{Filter, block, run};
pub use refusal::{Refusal, number};
