// The decimator and interpolator for C and Rust to link: the caller keeps the filter and lends it field by field. Each call is the one of
// the same name on a `Cic`, so its promise (specs/Calls of the crate cic_calls) cites that one's definitions. link/mittenload.h has the C side.

#![tactic(auto)]

pub mod decimator;
pub mod interpolator;
