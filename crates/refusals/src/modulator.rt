// Numbers 30 to 32: the modulator's order, a one-to-one block's slices, and retained cells.
use crate::print::{refused, row};
use dsm::Dsm;
use std::io;

fn block(xs: &[u32], ys: &mut [i16]) -> u32 {
    let mut modulator = Dsm {
        order: 2,
        ..Dsm::IDLE
    };
    refused(modulator.block(xs, ys))
}

// A step of order 2 whose retained cells were written by hand.
fn retained(cell: i16) -> u32 {
    let mut modulator = Dsm {
        order: 2,
        accumulators: [0; 8],
        retained: [cell; 8],
    };
    refused(modulator.process(1))
}

pub(crate) fn print_all(rt: &impl Print) -> io::Result<()> {
    let xs = [1u32, 2, 3];
    let mut two = [0i16; 2];
    let mut three = [0i16; 3];
    row(
        rt,
        b"modulator of order 9",
        refused(Dsm::new(9)),
        b"of order 8",
        refused(Dsm::new(8)),
    )?;
    row(
        rt,
        b"a block of 3 into 2",
        block(&xs, &mut two),
        b"into 3",
        block(&xs, &mut three),
    )?;
    row(rt, b"retained 2 in cell 0", retained(2), b"1", retained(1))?;
    row(
        rt,
        b"retained -1 in cell 0",
        retained(-1),
        b"0",
        retained(0),
    )
}
