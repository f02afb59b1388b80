// Numbers 20 to 23: slices that a block finds too short, and samples that come at the wrong time.
use crate::print::{refused, row};
use cic::runs::settled;
use cic::state::Cic;
use std::io;

// Order, delay and rate 1.
fn ones() -> Cic<i32> {
    Cic::new(1, 1, 1).unwrap_or(Cic::blank())
}

fn decimate_block(input: &[i32], out: &mut [i32]) -> u32 {
    refused(ones().decimate_block(input, out))
}

// A step of the interpolator at this countdown.
fn interpolate(countdown: u32, sample: Option<i32>) -> u32 {
    let mut filter = ones();
    filter.countdown = countdown;
    refused(filter.interpolate(sample))
}

fn interpolate_block(input: &[i32], out: &mut [i32]) -> u32 {
    refused(ones().interpolate_block(input, out))
}

fn print_outputs(rt: &impl Print) -> io::Result<()> {
    let short = [1i32, 2];
    let input = [1i32, 2, 3];
    let mut one = [0i32; 1];
    let mut two = [0i32; 2];
    row(
        rt,
        b"3 inputs at R 2 into 1 output",
        decimate_block(&input, &mut one),
        b"into 2",
        decimate_block(&input, &mut two),
    )?;
    row(
        rt,
        b"3 written of 2",
        refused(settled(&short, 3, 0)),
        b"2 of 2",
        refused(settled(&short, 2, 0)),
    )
}

fn print_samples(rt: &impl Print) -> io::Result<()> {
    row(
        rt,
        b"a sample at countdown 1",
        interpolate(1, Some(5)),
        b"none",
        interpolate(1, None),
    )?;
    row(
        rt,
        b"no sample at countdown 0",
        interpolate(0, None),
        b"one",
        interpolate(0, Some(5)),
    )
}

fn print_inputs(rt: &impl Print) -> io::Result<()> {
    let short = [1i32, 2];
    let mut three = [0i32; 3];
    row(
        rt,
        b"3 outputs at R 2 from 1 input",
        interpolate_block(&[1], &mut three),
        b"from 2",
        interpolate_block(&short, &mut three),
    )
}

pub(crate) fn print_all(rt: &impl Print) -> io::Result<()> {
    print_outputs(rt)?;
    print_samples(rt)?;
    print_inputs(rt)
}
