// Phase words: differences that wrap, phases unwrapped and clamped, and a wide value scaled to a word.
// Port of the crate's unwrap.rs. Callers cite specs/Phases (Wrap, Unwrapper, ClampWrap) and specs/Scales
// (saturating_scale).

#![tactic(auto)]

pub mod clamp_wrap;
pub mod scale;
pub mod unwrapper;
pub mod wrapping;
