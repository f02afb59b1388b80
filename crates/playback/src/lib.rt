// A whole replay over lent slices: document 01's 'The replay program', its input in parts of any size.
// Callers cite `replay` of specs/Replays, the whole output as a function of the whole input; `fed_of`, `bytes_of` and
// `finish_bytes` of specs/Places for an input in parts; `Writes` and `PartFed` there say what a call answers and leaves in
// the lent slice. `parts` of proofs/Wholes says that the parts come to the whole. specs/Inner serves private functions.

#![tactic(auto)]

pub mod answers;
pub mod driver;
mod samples;
mod turns;
