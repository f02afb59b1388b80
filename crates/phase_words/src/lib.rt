// What holds of the phase words of crate unwrap: delta and its sign, what turn count and phase make up (specs/Phases), and
// that the scaling keeps the order (specs/Scales: 02, A11). There is no code here, so an edit of a statement costs seconds.

#![tactic(auto)]
