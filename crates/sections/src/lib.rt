// A chain of sections, each an adapter with a coefficient and a cell, and blocks of steps through two and through eight of them.
// Callers cite specs/Sections (what runs through a chain); proofs/Padded says that sections of a nibble of zero leave all as it is.

#![tactic(auto)]

mod pairs;
pub mod runs;
mod turns;
