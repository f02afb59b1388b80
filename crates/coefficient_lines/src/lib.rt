// The lines of the program `coefficients` and what it answers to them (document 02, A10): no code but an enum. specs/Lines has a
// line and its answer, specs/Parts the program byte by byte (`answers_of`) and that any parts of an input give what the whole
// gives (`AnyParts`).

#![tactic(auto)]

pub mod adapter;
