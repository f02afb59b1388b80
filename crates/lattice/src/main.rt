// A lattice filter of order 3 from its poles: a Butterworth low pass with its corner at a tenth of the sampling rate.
// Prints the three coefficients' bits, then the answer to a step of 2^24, an output on a line: samples/draw_step.py
// draws it. The filter is half the sum of two all-pass chains, one of a section and one of two.

#![tactic(auto)]

use adapters::tpa::Tpa;
use std::io;
use wdf::filter::Wdf;

// The poles' parameters, from the prototype's poles -1 and -1/2 ± j sqrt(3)/2 by the bilinear transform: the real pole,
// and of the pair p and its conjugate -|p|^2 and 2 Re p / (1 + |p|^2).
const REAL: f64 = 0.5095254494944288;

const PAIR_SIZE: f64 = -0.5457233155094577;

const PAIR_TURN: f64 = 0.8090169943749475;

fn print_sums(rt: &impl Print, ys: &[i32], zs: &[i32]) -> io::Result<()> {
    for (y, z) in ys.iter().zip(zs) {
        println!(rt; "{}", y.wrapping_add(*z))?;
    }
    Ok(())
}

fn main(rt: HostRuntime) -> io::Result<()> {
    let real = Tpa::A.quantize(REAL).unwrap_or(0);
    let size = Tpa::D.quantize(PAIR_SIZE).unwrap_or(0);
    let turn = Tpa::A.quantize(PAIR_TURN).unwrap_or(0);
    println!(rt; "{real}")?;
    println!(rt; "{size}")?;
    println!(rt; "{turn}")?;
    let mut first = Wdf::new(1, 0xa, [real, 0, 0, 0, 0, 0, 0, 0]).unwrap_or(Wdf::EMPTY);
    let mut second = Wdf::new(2, 0xad, [size, turn, 0, 0, 0, 0, 0, 0]).unwrap_or(Wdf::EMPTY);
    // Half the step goes into each chain.
    let xs = [8388608i32; 48];
    let mut ys = [0i32; 48];
    let mut zs = [0i32; 48];
    let _one = first.block(&xs, &mut ys);
    let _two = second.block(&xs, &mut zs);
    print_sums(&rt, &ys, &zs)
}
