// Words: sums, differences, products and shifts modulo 2^32 and 2^64, and what Rust writes as `as`.
// Every function is total and compiles to the machine's own instruction.
// Callers cite `word` and `wrap` of specs/Words, and the laws of proofs/ (Reading, Sums, Sizes).

#![tactic(auto)]

pub mod casts;
pub mod shifts;
pub mod signed;
pub mod unsigned;
pub mod word32;
pub mod word64;
