// The recorder's records (docs/RECORDER.md): a line read, a saved state read, and what a record does at the recorder's desk.
// Callers cite `record_of` of specs/Lines, `load_of` of specs/Saved and `taken_of` of specs/Desks.

#![tactic(auto)]

pub mod desk;
pub mod lines;
pub mod saved;
