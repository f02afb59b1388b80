// The two port adapters.
pub use adapters::tpa::{Ports, Tpa};
