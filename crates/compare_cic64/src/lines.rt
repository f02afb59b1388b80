// Lines of stored answers, by their code: how many cases each stands for, and how many differ.
use crate::refusals::compare_refusals;
use crate::runs::{Resumed, digest_state, started, whole_run};
use crate::word::{Word, bits_of, word_of};
use blocks::Refusal;
use cic::state::Cic;
use rust_answers::lines::{double, line, report, unlike, unlike_double};
use std::io;

const LINES: u32 = 1850;

const WIDTH: u32 = 15;

fn told(t: Result<u64, Refusal>) -> u64 {
    match t {
        Ok(v) => v,
        Err(r) => u64::from(r.number()),
    }
}

fn value(v: Result<Word, Refusal>) -> u64 {
    match v {
        Ok(y) => bits_of(y),
        Err(r) => u64::from(r.number()),
    }
}

// Whether inputs of so many bits fit, as 1 or 0, or the number of a refusal.
pub(crate) fn fitted(f: Result<bool, Refusal>) -> u32 {
    match f {
        Ok(yes) => u32::from(yes),
        Err(r) => r.number(),
    }
}

// The state of a line.
fn state_of(w: [u32; 40]) -> Cic<Word> {
    let first: Resumed = started(w);
    first.state
}

// The gain modulo the word, as the Rust has it; the exact one is refused with 14 above 2^63 - 1 (a difference).
fn gain_differs(s: Cic<Word>, wrapped: u64) -> u64 {
    match s.gain() {
        Ok(v) => {
            let word: Word = word_of(v);
            unlike_double(bits_of(word), wrapped)
        }
        Err(r) => unlike(r.number(), 14),
    }
}

fn questions(w: [u32; 40]) -> u64 {
    let s: Cic<Word> = state_of(w);
    if u32::from(s.tick()) != w[6] {
        return 1;
    }
    if bits_of(s.get_decimate()) != double(w[7], w[8]) {
        return 1;
    }
    if value(s.get_interpolate()) != double(w[9], w[10]) {
        return 1;
    }
    if told(s.gain_log2()) != double(0, w[13]) {
        return 1;
    }
    if told(s.response_length()) != double(0, w[14]) {
        return 1;
    }
    gain_differs(s, double(w[11], w[12]))
}

fn settle(w: [u32; 40]) -> u64 {
    let mut s: Cic<Word> = state_of(w);
    let _answer = s.settle_interpolate(word_of(double(w[6], w[7])));
    unlike_double(digest_state(0, s), double(w[8], w[9]))
}

fn clear(w: [u32; 40]) -> u64 {
    let mut s: Cic<Word> = state_of(w);
    let _answer = s.clear();
    unlike_double(digest_state(0, s), double(w[8], w[9]))
}

// Fit's answers that aren't yes exactly up to this many bits.
fn fits_at(s: Cic<Word>, width: u32, most: u32) -> u64 {
    let mut n: u64 = 0;
    for i in 0..width {
        n = n.wrapping_add(unlike(fitted(s.fit(width, i + 1)), u32::from(i < most)));
    }
    n
}

fn fits(w: [u32; 40]) -> u64 {
    let s: Cic<Word> = state_of(w);
    fits_at(s, 32, w[6]).wrapping_add(fits_at(s, 64, w[7]))
}

// How many of a line's cases differ from what the proved functions give.
fn differs(w: [u32; 40]) -> u64 {
    match w[0] {
        1 | 2 | 3 | 4 => whole_run(w),
        5 => questions(w),
        6 => settle(w),
        7 => clear(w),
        _ => fits(w),
    }
}

// How many cases a line stands for: the steps of a run, the bits of fit's two widths, else one.
fn weight(w: [u32; 40]) -> u64 {
    match w[0] {
        1 | 2 => double(0, w[6]),
        3 | 4 => double(0, w[10]),
        8 => 96,
        _ => 1,
    }
}

// 1 where the gain is refused: the Rust's is then not compared.
fn past_the_cap(w: [u32; 40]) -> u64 {
    let s: Cic<Word> = state_of(w);
    u64::from(s.gain().is_err())
}

// How many of the bits that fit are above the crate's bound, the width less gain_log2.
fn above_the_bound(width: u32, log2: u32, most: u32) -> u64 {
    let bound = width.saturating_sub(log2);
    u64::from(most.saturating_sub(bound))
}

// How many of a line's cases the crate answers otherwise, by a difference that is known.
fn otherwise(w: [u32; 40]) -> u64 {
    match w[0] {
        5 => past_the_cap(w),
        8 => above_the_bound(32, w[8], w[6]).wrapping_add(above_the_bound(64, w[8], w[7])),
        _ => 0,
    }
}

fn tell(rt: &impl Print, code: u32, n: u64) -> io::Result<()> {
    if n == 0 {
        return Ok(());
    }
    if code == 5 {
        rt.write_all(b"  of which a gain refused with 14, that the crate wraps: ")?;
    } else {
        rt.write_all(b"  of which yes, where the crate's bound says no: ")?;
    }
    rt.println(n)
}

// All lines with this code.
fn compare(rt: &impl Print, text: &[u8], code: u32, name: &[u8]) -> io::Result<()> {
    let mut cases: u64 = 0;
    let mut differ: u64 = 0;
    let mut other: u64 = 0;
    for i in 0..LINES {
        let w = line(text, i * WIDTH);
        if w[0] == code {
            cases = cases.wrapping_add(weight(w));
            differ = differ.wrapping_add(differs(w));
            other = other.wrapping_add(otherwise(w));
        }
    }
    report(rt, name, cases, differ)?;
    tell(rt, code, other)
}

// Prints how many of the cases that the text stores differ, a line for each kind, and the same of the refusals.
pub(crate) fn compare_all(rt: &impl Print, text: &[u8]) -> io::Result<()> {
    compare(
        rt,
        text,
        1,
        b"decimator steps, by value or on lent arrays, whole state after each",
    )?;
    compare(rt, text, 2, b"interpolator steps, whole state after each")?;
    compare(rt, text, 3, b"decimator blocks, whole state after each")?;
    compare(rt, text, 4, b"interpolator blocks, whole state after each")?;
    compare(
        rt,
        text,
        5,
        b"tick, outputs, gain, gain_log2, response_length",
    )?;
    compare(rt, text, 6, b"settle_interpolate")?;
    compare(rt, text, 7, b"clear")?;
    compare(
        rt,
        text,
        8,
        b"fit, every b at widths 32 and 64, by whole numbers",
    )?;
    compare_refusals(rt)
}
