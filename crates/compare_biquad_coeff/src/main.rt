// Runs the proved pairs, makers, gain and offset of the biquad over the Rust's stored answers (oracle/README.md,
// biquad_coeff) and prints what differs.

#![tactic(auto)]

ghost use Rattle.std.specs.Prelude.{◌<◌, ◌≤◌};

use biquad::biquad::Biquad;
use biquad::biquad_clamp::BiquadClamp;
use biquad::pair::Pair;
use blocks::Refusal;
use rust_answers::doubles::{from_bits, to_bits};
use rust_answers::input::read_full;
use rust_answers::lines::{double, line, report, unlike_double};
use std::io;

const LINES: u32 = 1000;

const WIDTH: u32 = 23;

// The double at word number at of a line.
fn value(w: [u32; 40], at: usize) -> f64
    requires { at < 39 }
{
    from_bits(double(w[at], w[at + 1]))
}

// 1 where x has other bits than those at word number at; any NaN is one.
fn other(w: [u32; 40], at: usize, x: f64) -> u64
    requires { at < 39 }
    ensures { result ≤ 1 }
{
    unlike_double(to_bits(x), double(w[at], w[at + 1]))
}

fn pair(w: [u32; 40], at: usize) -> Pair
    requires { at < 36 }
{
    if w[at] == 0 {
        return Pair::Real(value(w, at + 1), value(w, at + 3));
    }
    Pair::Complex(value(w, at + 1), value(w, at + 3))
}

fn coefficients(w: [u32; 40]) -> Biquad {
    Biquad {
        b0: value(w, 1),
        b1: value(w, 3),
        b2: value(w, 5),
        a1: value(w, 7),
        a2: value(w, 9),
    }
}

// How many of the coefficients have other bits than those at word number at.
fn others(w: [u32; 40], at: usize, c: Biquad) -> u64
    requires { at < 31 }
    ensures { result ≤ 5 }
{
    other(w, at, c.b0)
        + other(w, at + 2, c.b1)
        + other(w, at + 4, c.b2)
        + other(w, at + 6, c.a1)
        + other(w, at + 8, c.a2)
}

fn polynomial(w: [u32; 40]) -> u64 {
    let c = pair(w, 1).coeff();
    other(w, 6, c.0) + other(w, 8, c.1)
}

fn zpk(w: [u32; 40]) -> u64 {
    let c = Biquad::from_zpk(pair(w, 1), pair(w, 6), value(w, 11));
    others(w, 13, c)
}

fn gain(w: [u32; 40]) -> u64 {
    other(w, 11, coefficients(w).forward_gain())
}

fn offset(w: [u32; 40]) -> u64 {
    let mut c = BiquadClamp::from(coefficients(w));
    c.u = value(w, 11);
    match c.input_offset() {
        Ok(v) => other(w, 13, v),
        Err(_) => 1,
    }
}

fn set_offset(w: [u32; 40]) -> u64 {
    let mut c = BiquadClamp::from(coefficients(w));
    c.set_input_offset(value(w, 11));
    other(w, 13, c.u)
}

fn constant(w: [u32; 40], c: Biquad) -> u64 {
    let open = BiquadClamp::from(c);
    others(w, 1, open.coeff())
        + other(w, 11, open.u)
        + other(w, 13, open.min)
        + other(w, 15, open.max)
}

fn proportional(w: [u32; 40]) -> u64 {
    others(w, 3, Biquad::proportional(value(w, 1)))
}

// How many numbers of the line differ from what the proved function gives.
fn differing(w: [u32; 40]) -> u64 {
    match w[0] {
        1 => polynomial(w),
        2 => zpk(w),
        3 => gain(w),
        4 => offset(w),
        5 => set_offset(w),
        6 => constant(w, Biquad::IDENTITY),
        7 => constant(w, Biquad::HOLD),
        _ => proportional(w),
    }
}

// 1 where the line differs.
fn differs(w: [u32; 40]) -> u64 {
    if differing(w) == 0 { 0 } else { 1 }
}

// All lines with this code.
fn compare(rt: &impl Print, text: &[u8], code: u32, name: &[u8]) -> io::Result<()> {
    let mut cases: u64 = 0;
    let mut differ: u64 = 0;
    for i in 0..LINES {
        let w = line(text, i * WIDTH);
        if w[0] == code {
            cases = cases.wrapping_add(1);
            differ = differ.wrapping_add(differs(w));
        }
    }
    report(rt, name, cases, differ)?;
    Ok(())
}

// 1 where the gain b0 + b1 + b2 is not answered by 42.
fn granted(b0: f64, b1: f64, b2: f64) -> u64
    ensures { result ≤ 1 }
{
    let mut c = BiquadClamp::from(Biquad::HOLD);
    c.b0 = b0;
    c.b1 = b1;
    c.b2 = b2;
    c.u = 1.0;
    match c.input_offset() {
        Err(Refusal::ForwardGain) => 0,
        _ => 1,
    }
}

fn main(rt: HostRuntime) -> io::Result<()> {
    let mut space = [0u8; 200000];
    let n = read_full(&mut rt.stdin(), &mut space)?;
    let text = &space[..n];
    compare(&rt, text, 1, b"Pair coeff")?;
    compare(&rt, text, 2, b"from_zpk")?;
    compare(&rt, text, 3, b"forward_gain")?;
    compare(&rt, text, 4, b"input_offset")?;
    compare(&rt, text, 5, b"set_input_offset")?;
    compare(&rt, text, 6, b"IDENTITY")?;
    compare(&rt, text, 7, b"HOLD")?;
    compare(&rt, text, 8, b"proportional")?;
    let zeros = granted(0.0, 0.0, 0.0)
        + granted(-0.0, -0.0, -0.0)
        + granted(1.0, -2.0, 1.0)
        + granted(1e300, -1e300, -0.0);
    report(&rt, b"refusal 42", 4, zeros)?;
    Ok(())
}
