// What the comparisons with the Rust share: the lines of stored words, what differs from them, the generator of long
// runs and their digests, as oracle/README.md has them, and the line that a comparison prints.
// Callers cite `words_at` and `unlike_all` of specs/Lines, `drawn`, `spread_of` and `digest_all` of specs/Runs.

#![tactic(auto)]

pub mod doubles;
pub mod input;
pub mod lines;
pub mod runs;
