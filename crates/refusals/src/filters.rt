// Numbers 50 to 65, and 31 of a loop: wave digital sections and coefficients, the reciprocal loop, and the scale.
use crate::print::{refused, row};
use rpll::{RPLL, RPLLConfig};
use std::io;
use unwrap::scale::saturating_scale;
use wdf::filter::Wdf;
use wdf::tpa::Tpa;

fn scale(shift: u32) -> u32 {
    refused(saturating_scale(0, 1, shift))
}

fn sections(count: usize, architecture: u32) -> u32 {
    refused(Wdf::new(count, architecture, [0; 8]))
}

fn sections_of_form1(count: usize, architecture: u32) -> u32 {
    refused(Wdf::from_form1(count, architecture, [0; 8]))
}

fn coefficient(code: Tpa, g: f64) -> u32 {
    refused(code.quantize(g))
}

fn zero() -> RPLL {
    RPLL {
        x: 0,
        ff: 0,
        f: 0,
        y: 0,
    }
}

fn loops(dt2: u8, shift_frequency: u8, shift_phase: u8) -> u32 {
    let config = RPLLConfig {
        dt2,
        shift_frequency,
        shift_phase,
    };
    refused(config.process(&mut zero(), None))
}

fn loop_block(there: &[bool], xs: &[i32], ys: &mut [i32], fs: &mut [i32]) -> u32 {
    let config = RPLLConfig {
        dt2: 8,
        shift_frequency: 9,
        shift_phase: 8,
    };
    refused(config.block(&mut zero(), there, xs, ys, fs))
}

pub(crate) fn print_block(rt: &impl Print) -> io::Result<()> {
    let there = [true; 3];
    let xs = [0; 3];
    let mut ys = [0; 3];
    let mut two = [0; 2];
    let mut three = [0; 3];
    row(
        rt,
        b"a loop's block of 3 with frequencies into 2",
        loop_block(&there, &xs, &mut ys, &mut two),
        b"into 3",
        loop_block(&there, &xs, &mut ys, &mut three),
    )
}

fn print_sections(rt: &impl Print) -> io::Result<()> {
    row(rt, b"9 sections", sections(9, 0), b"8", sections(8, 0))?;
    row(
        rt,
        b"nibble 1 past 1 section",
        sections(1, 0x11),
        b"0",
        sections(1, 0x01),
    )
}

fn print_coefficients(rt: &impl Print) -> io::Result<()> {
    row(
        rt,
        b"coefficient C at 5e-324",
        coefficient(Tpa::C, 5e-324),
        b"at 0",
        coefficient(Tpa::C, 0.0),
    )?;
    row(
        rt,
        b"coefficient C at a NaN",
        coefficient(Tpa::C, 0.0 / 0.0),
        b"Z at a NaN",
        coefficient(Tpa::Z, 0.0 / 0.0),
    )?;
    row(
        rt,
        b"coefficient C at -infinity",
        coefficient(Tpa::C, -1.0 / 0.0),
        b"at -0.5",
        coefficient(Tpa::C, -0.5),
    )?;
    row(
        rt,
        b"coefficient B at infinity",
        coefficient(Tpa::B, 1.0 / 0.0),
        b"X at infinity",
        coefficient(Tpa::X, 1.0 / 0.0),
    )
}

// Nibbles e and f, and the coefficients of B1 and C1.
fn print_retired(rt: &impl Print) -> io::Result<()> {
    row(
        rt,
        b"nibble e for a section",
        sections(1, 0xe),
        b"b",
        sections(1, 0xb),
    )?;
    row(
        rt,
        b"nibble f for a section",
        sections(1, 0xf),
        b"of form 1",
        sections_of_form1(1, 0xf),
    )?;
    row(
        rt,
        b"nibbles 1f for 1 section",
        sections(1, 0x1f),
        b"for 2",
        sections(2, 0x1f),
    )?;
    row(
        rt,
        b"coefficient B1 at 0.25",
        coefficient(Tpa::B1, 0.25),
        b"B at 0.25",
        coefficient(Tpa::B, 0.25),
    )?;
    row(
        rt,
        b"coefficient C1 at a NaN",
        coefficient(Tpa::C1, 0.0 / 0.0),
        b"C at a NaN",
        coefficient(Tpa::C, 0.0 / 0.0),
    )
}

fn print_loops(rt: &impl Print) -> io::Result<()> {
    row(rt, b"dt2 31", loops(31, 32, 31), b"30", loops(30, 32, 31))?;
    row(
        rt,
        b"dt2 8, shift_frequency 8",
        loops(8, 8, 8),
        b"9",
        loops(8, 9, 8),
    )?;
    row(
        rt,
        b"shift_frequency 33",
        loops(8, 33, 8),
        b"32",
        loops(8, 32, 8),
    )?;
    row(
        rt,
        b"dt2 8, shift_phase 7",
        loops(8, 9, 7),
        b"8",
        loops(8, 9, 8),
    )?;
    row(
        rt,
        b"dt2 8, shift_phase 40",
        loops(8, 9, 40),
        b"39",
        loops(8, 9, 39),
    )
}

fn print_scale(rt: &impl Print) -> io::Result<()> {
    row(rt, b"shift 0", scale(0), b"1", scale(1))?;
    row(rt, b"shift 33", scale(33), b"32", scale(32))
}

pub(crate) fn print_all(rt: &impl Print) -> io::Result<()> {
    print_sections(rt)?;
    print_coefficients(rt)?;
    print_retired(rt)?;
    print_loops(rt)?;
    print_scale(rt)
}
