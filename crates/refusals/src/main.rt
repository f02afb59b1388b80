// Prints document 01's bench figures beyond T1 to T10, and every number of its refusal table with a call that is
// refused by it and a neighbour that is not.

#![tactic(auto)]

mod counts;
mod figures;
mod filters;
mod fractions;
mod limits;
mod lines;
mod modulator;
mod print;
mod states;
mod waves;
mod wide;

use std::io;

fn main(rt: HostRuntime) -> io::Result<()> {
    figures::print_all(&rt)?;
    states::print_all(&rt)?;
    wide::print_all(&rt)?;
    counts::print_all(&rt)?;
    modulator::print_all(&rt)?;
    fractions::print_all(&rt)?;
    limits::print_all(&rt)?;
    filters::print_all(&rt)?;
    filters::print_block(&rt)?;
    lines::print_all(&rt)?;
    waves::print_all(&rt)
}
