// The other filters for C and Rust to link: the caller keeps states and coefficients and lends them field by field. Each call is the
// Rattle call of the same name, so its promise cites that one's definitions. link/mittenload.h has the C side.

#![tactic(auto)]

pub mod blocks_of;
pub mod makers;
mod states;
