// The two port adapters of wave digital filters, and a coefficient's bits from a pole. Port of the crate's iir/wdf.rs.
// Callers cite specs/Adapters (Tpa) and specs/Quantize; proofs/Adapters and proofs/Nearest have what follows from them.

#![tactic(auto)]

pub mod quantize;
pub mod tpa;
