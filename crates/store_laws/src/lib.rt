// What holds of reading a store and writing it together (02, A7), of the reader of form 1 and of a `dither` record (A12): specs/Laws.
// There is no code here, so an edit of a statement costs seconds.

#![tactic(auto)]
