// Number 40: fraction bits, and 41 of the fixed-point forms.
use crate::print::{refused, row};
use biquad_fixed::coefficients::{Biquad, BiquadClamp};
use biquad_fixed::dither::DirectForm1Dither;
use biquad_fixed::wide::DirectForm1Wide;
use std::io;

fn coefficients(f: u32) -> Biquad {
    Biquad {
        b0: 1,
        b1: 0,
        b2: 0,
        a1: 0,
        a2: 0,
        f,
    }
}

fn wide(f: u32) -> u32 {
    let mut state = DirectForm1Wide {
        x1: 0,
        x2: 0,
        y1: 0,
        y2: 0,
    };
    refused(state.process(coefficients(f), 1))
}

fn zero() -> DirectForm1Dither {
    DirectForm1Dither {
        x1: 0,
        x2: 0,
        y1: 0,
        y2: 0,
        e: 0,
    }
}

fn dither(f: u32) -> u32 {
    let mut state = zero();
    refused(state.process(coefficients(f), 1))
}

fn clamped(min: i32, max: i32) -> u32 {
    let c = BiquadClamp {
        coeff: coefficients(1),
        u: 0,
        min,
        max,
    };
    let mut state = zero();
    refused(state.process_clamp(c, 1))
}

pub(crate) fn print_all(rt: &impl Print) -> io::Result<()> {
    row(rt, b"wide, F 32", wide(32), b"F 31", wide(31))?;
    row(rt, b"dither, F 0", dither(0), b"F 1", dither(1))?;
    row(rt, b"dither, F 32", dither(32), b"F 31", dither(31))?;
    row(
        rt,
        b"dither, lower limit 1 above upper 0",
        clamped(1, 0),
        b"1 and 1",
        clamped(1, 1),
    )
}
