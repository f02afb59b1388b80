// Document 01, 'Bench figures': those that aren't T cases. Rates 65,535 and 65,536 stand with number 12, F 0 for
// dither with number 40. The scaled word of hi 1073741824 is that of 02, A11.
use crate::print::{number, signed, text};
use biquad::biquad::Biquad;
use biquad::pair::Pair;
use blocks::Refusal;
use cic::state::Cic;
use std::io;
use unwrap::scale::saturating_scale;

fn scaled(rt: &impl Print, hi: i32) -> io::Result<()> {
    text(rt, b"shift 31, lo 0, hi ")?;
    signed(rt, hi)?;
    match saturating_scale(0, hi, 31) {
        Ok(v) => {
            text(rt, b" gives ")?;
            signed(rt, v)?;
        }
        Err(refusal) => {
            text(rt, b" is ")?;
            number(rt, u64::from(refusal.number()))?;
        }
    }
    text(rt, b"\n")
}

// A double under its name where it is the one named, else a question mark.
fn double(rt: &impl Print, x: f64, named: f64, name: &[u8]) -> io::Result<()> {
    if x == named {
        return text(rt, name);
    }
    text(rt, b"?")
}

fn coefficients(rt: &impl Print) -> io::Result<()> {
    let c = Biquad::from_zpk(Pair::Real(2.0, 3.0), Pair::Complex(0.5, 0.5), 2.0);
    text(rt, b"zeros Real 2, 3, poles Complex 0.5, 0.5, gain 2 give ")?;
    double(rt, c.b0, 2.0, b"2, ")?;
    double(rt, c.b1, -10.0, b"-10, ")?;
    double(rt, c.b2, 12.0, b"12, ")?;
    double(rt, c.a1, 1.0, b"1, ")?;
    double(rt, c.a2, -0.5, b"-0.5\n")
}

fn told(rt: &impl Print, t: Result<u64, Refusal>) -> io::Result<()> {
    match t {
        Ok(n) => number(rt, n),
        Err(refusal) => {
            text(rt, b"refusal ")?;
            number(rt, u64::from(refusal.number()))
        }
    }
}

fn answer(rt: &impl Print, yes: bool) -> io::Result<()> {
    if yes {
        return text(rt, b"yes");
    }
    text(rt, b"no")
}

fn fit(rt: &impl Print) -> io::Result<()> {
    let filter = Cic::<i32>::new(3, 1, 4).unwrap_or(Cic::blank());
    text(rt, b"b 25, N 3, M 1, rate 4: gain ")?;
    told(rt, filter.gain())?;
    text(rt, b", gain_log2 ")?;
    told(rt, filter.gain_log2())?;
    text(rt, b", fit ")?;
    match filter.fit(32, 25) {
        Ok(yes) => answer(rt, yes)?,
        Err(_) => text(rt, b"refused")?,
    }
    text(rt, b"\n")
}

pub(crate) fn print_all(rt: &impl Print) -> io::Result<()> {
    scaled(rt, 1073741823)?;
    scaled(rt, 1073741824)?;
    coefficients(rt)?;
    fit(rt)
}
