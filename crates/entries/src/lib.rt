// A record of a settings store by value (document 02, A7 and A12), and the numbers that refuse it. The types are those of
// settings; a caller cites `records_in` and `number_as` of specs/Entries.

#![tactic(auto)]

pub mod names;
pub mod numbers;
pub mod settings;
