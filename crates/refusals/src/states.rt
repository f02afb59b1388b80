// Numbers 10 to 17: what a decimator's or interpolator's state may be, and what may be asked of it.
use crate::print::{refused, row};
use cic::state::Cic;
use std::io;

fn new(order: usize, delay: usize, rate: u32) -> u32 {
    refused(Cic::<i32>::new(order, delay, rate))
}

fn made(order: usize, delay: usize, rate: u32) -> Cic<i32> {
    Cic::new(order, delay, rate).unwrap_or(Cic::blank())
}

fn resume(countdown: u32) -> u32 {
    refused(Cic::<i32>::resume(3, 1, 3, [7; 8], [5; 64], 1, countdown, 0))
}

fn gain(order: usize) -> u32 {
    refused(made(order, 8, 65535).gain())
}

// A filter of order 3 and delay 1 whose unsettled count was written by hand.
fn unsettled(count: usize) -> Cic<i32> {
    let mut filter = made(3, 1, 3);
    filter.unsettled = count;
    filter
}

fn step(count: usize) -> u32 {
    refused(unsettled(count).decimate(1))
}

// What the same filter answers to the question for its number.
fn asked(count: usize) -> u32 {
    refused(unsettled(count).check())
}

// The filter after so many inputs, at a countdown: no output falls on its next input.
fn after(inputs: u64) -> Cic<i32> {
    Cic::resume(3, 1, 3, [7; 8], [5; 64], 1, 2, inputs).unwrap_or(Cic::blank())
}

fn step_after(inputs: u64) -> u32 {
    refused(after(inputs).decimate(1))
}

fn block_after(inputs: u64, input: &[i32], out: &mut [i32]) -> u32 {
    refused(after(inputs).decimate_block(input, out))
}

// The question for the outputs of 28 inputs, at a rate that was written by hand.
fn length(rate: u32) -> u32 {
    let mut filter = made(3, 1, 3);
    filter.rate = rate;
    refused(filter.low_rate_length(28))
}

fn fit(width: u32, b: u32) -> u32 {
    refused(made(0, 1, 0).fit(width, b))
}

// Input number 2^64 - 1 is the last.
fn print_inputs(rt: &impl Print) -> io::Result<()> {
    let most = u64::MAX;
    let three = [1i32; 3];
    let mut none = [0i32; 0];
    let mut one = [0i32; 1];
    row(
        rt,
        b"a step after 2^64 - 1 inputs, no output due",
        step_after(most),
        b"after 2^64 - 2",
        step_after(most - 1),
    )?;
    row(
        rt,
        b"a block of 3 after 2^64 - 3 inputs",
        block_after(most - 2, &three, &mut one),
        b"after 2^64 - 4",
        block_after(most - 3, &three, &mut one),
    )?;
    row(
        rt,
        b"a block of 3 after 2^64 - 1 inputs, its slice too short",
        block_after(most, &three, &mut none),
        b"an empty block there",
        block_after(most, &three[..0], &mut none),
    )
}

fn print_makers(rt: &impl Print) -> io::Result<()> {
    row(rt, b"order 9", new(9, 1, 0), b"order 8", new(8, 1, 0))?;
    row(rt, b"delay 0", new(1, 0, 0), b"delay 1", new(1, 1, 0))?;
    row(rt, b"delay 9", new(1, 9, 0), b"delay 8", new(1, 8, 0))?;
    row(
        rt,
        b"rate 65536",
        new(1, 1, 65536),
        b"rate 65535",
        new(1, 1, 65535),
    )?;
    row(
        rt,
        b"countdown 65536",
        resume(65536),
        b"countdown 65535",
        resume(65535),
    )
}

fn print_questions(rt: &impl Print) -> io::Result<()> {
    row(
        rt,
        b"outputs of 28 inputs at rate 65536",
        length(65536),
        b"at 65535",
        length(65535),
    )?;
    row(rt, b"gain 2^76", gain(4), b"gain 2^57", gain(3))?;
    row(
        rt,
        b"unsettled 4 of N M = 3",
        step(4),
        b"unsettled 3",
        step(3),
    )?;
    row(
        rt,
        b"asked for its number at unsettled 4",
        asked(4),
        b"at 3",
        asked(3),
    )
}

fn print_fits(rt: &impl Print) -> io::Result<()> {
    row(
        rt,
        b"fit of 0 bits in 32",
        fit(32, 0),
        b"of 1 bit",
        fit(32, 1),
    )?;
    row(
        rt,
        b"fit of 33 bits in 32",
        fit(32, 33),
        b"of 32 bits",
        fit(32, 32),
    )?;
    row(
        rt,
        b"fit of 65 bits in 64",
        fit(64, 65),
        b"of 64 bits",
        fit(64, 64),
    )?;
    row(rt, b"fit of 1 bit in 33", fit(33, 1), b"in 64", fit(64, 1))
}

pub(crate) fn print_all(rt: &impl Print) -> io::Result<()> {
    print_makers(rt)?;
    print_questions(rt)?;
    print_inputs(rt)?;
    print_fits(rt)
}
