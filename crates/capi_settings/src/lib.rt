// Settings stores for C and Rust to link: a text's records one at a time into lent fields, a record put into a text, and a text moved to the
// other form. Each call is made of those of store_read, store_write and store, and its promise cites their definitions.

#![tactic(auto)]

pub mod calls;
mod parts;
