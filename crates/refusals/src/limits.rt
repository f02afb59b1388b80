// Numbers 41 and 42 of the double-precision biquad.
use crate::print::{refused, row};
use biquad::biquad::Biquad;
use biquad::biquad_clamp::BiquadClamp;
use biquad::direct_form1::DirectForm1;
use std::io;

fn clamped(min: f64, max: f64) -> u32 {
    let c = BiquadClamp {
        min,
        max,
        ..BiquadClamp::from(Biquad::IDENTITY)
    };
    let mut state = DirectForm1::default();
    refused(state.process_clamp(c, 1.0))
}

fn input_offset(gain: f64) -> u32 {
    let c = BiquadClamp::from(Biquad::proportional(gain));
    refused(c.input_offset())
}

pub(crate) fn print_all(rt: &impl Print) -> io::Result<()> {
    row(
        rt,
        b"lower limit 1 above upper 0",
        clamped(1.0, 0.0),
        b"1 and 1",
        clamped(1.0, 1.0),
    )?;
    row(
        rt,
        b"a NaN for lower limit",
        clamped(0.0 / 0.0, 1.0),
        b"0",
        clamped(0.0, 1.0),
    )?;
    row(
        rt,
        b"input_offset at gain 0",
        input_offset(0.0),
        b"at gain 1",
        input_offset(1.0),
    )
}
