// What a line's first field names.
use adapters::tpa::Tpa;

// An adapter by its name, or a name that is none.
#[derive(Clone, Copy)]
pub enum Adapter {
    Named(Tpa),
    Unknown,
}
