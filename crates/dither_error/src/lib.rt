// What the error feedback of crate biquad_fixed keeps, in steps and in blocks, plain and clamped (specs/Keeping). There is no
// code here, so an edit of a statement costs seconds.

#![tactic(auto)]
