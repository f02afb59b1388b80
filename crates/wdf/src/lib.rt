// Wave digital filters: two port adapters in a chain of up to 8 sections, each with a coefficient and a cell.
// Port of the crate's iir/wdf.rs, whose adapters are the crate adapters and whose blocks are those of the crate sections.
// Callers cite specs/Calls (Wdf); proofs/Filters and proofs/Retired have what follows from it.

#![tactic(auto)]

pub mod filter;
pub mod tpa;
