// The recorder's words in turn (docs/RECORDER.md), read from lines as one block. Callers cite `run_of` of specs/Runs.

#![tactic(auto)]

pub mod runs;
