// What is read and written again by crate wav is the same bytes, in any even parts (specs/Files). There is no code here,
// so an edit of a statement costs seconds.

#![tactic(auto)]
