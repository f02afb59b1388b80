// Numbers 14 and 17 of a filter on i64, where a word's width could show.
use crate::print::{refused, row};
use cic::state::Cic;
use cic::word::Word;
use std::io;

const BITS: u32 = <i64 as Word>::BITS;

fn made(order: usize, rate: u32) -> Cic<i64> {
    Cic::new(order, 1, rate).unwrap_or(Cic::blank())
}

fn gain(rate: u32) -> u32 {
    refused(made(7, rate).gain())
}

fn fit(width: u32, b: u32) -> u32 {
    refused(made(0, 0).fit(width, b))
}

pub(crate) fn print_all(rt: &impl Print) -> io::Result<()> {
    row(rt, b"i64: gain 512^7", gain(511), b"gain 511^7", gain(510))?;
    row(
        rt,
        b"i64: fit of 33 bits in 32",
        fit(32, 33),
        b"in 64",
        fit(64, 33),
    )?;
    row(
        rt,
        b"i64: fit of 65 bits in the word",
        fit(BITS, 65),
        b"of 64 bits",
        fit(BITS, 64),
    )
}
