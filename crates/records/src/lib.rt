// The replay program's records (document 01, 'The replay program'; 02, A1): a line read, and what it does to the filter.
// Callers cite `record_of` of specs/Lines, `line_of` of specs/Sessions with `kept_words`, and `in-its-word` of proofs/Seeing:
// read in the session's word, it is `line_of` with `own_words`.

#![tactic(auto)]

pub mod parse;
pub mod session;
