// Runs the proved phase words over the Rust's stored answers (oracle/README.md, unwrap) and prints what differs. The
// crate clips a scaled word otherwise (02, A11): where that gives another number it is counted, not differing.

#![tactic(auto)]

ghost use Rattle.std.specs.Prelude.{◌≤◌};

use blocks::Filter;
use rust_answers::input::read_full;
use rust_answers::lines::{double, line, report, unlike, unlike_double};
use rust_answers::runs::{digest, digest_double, draw, spread};
use std::io;
use unwrap::clamp_wrap::ClampWrap;
use unwrap::scale::saturating_scale;
use unwrap::unwrapper::Unwrapper;
use unwrap::wrapping::{Wrap, overflowing_sub};

const LINES: u32 = 2750;

const WIDTH: u32 = 8;

// The word of a wrap's sign, as the stored answers have it.
fn sign(w: Wrap) -> u32 {
    match w {
        Wrap::Negative => 0xffff_ffff,
        Wrap::None => 0,
        Wrap::Positive => 1,
    }
}

fn wrap_of(sign: u32) -> Wrap {
    match sign {
        0 => Wrap::None,
        1 => Wrap::Positive,
        _ => Wrap::Negative,
    }
}

fn scaled(lo: u32, hi: u32, shift: u32) -> u32 {
    match saturating_scale(lo.cast_signed(), hi.cast_signed(), shift) {
        Ok(v) => v.cast_unsigned(),
        Err(refusal) => refusal.number(),
    }
}

// What the crate gives where y is given: its clip's number where hi is 2^(shift-1) or more either way, else the same.
fn in_crate(y: u32, hi: u32, shift: u32) -> u32 {
    if shift == 0 {
        return y;
    }
    if 31 < shift {
        return y;
    }
    let limit = 1u32 << (shift - 1);
    if limit.cast_signed() <= hi.cast_signed() {
        return 0x8000_0000u32.wrapping_sub(limit);
    }
    if hi.cast_signed() <= limit.wrapping_neg().cast_signed() {
        return 0x8000_0000u32.wrapping_add(limit);
    }
    y
}

fn difference(w: [u32; 40]) -> u64 {
    let d = overflowing_sub(w[1].cast_signed(), w[2].cast_signed());
    if d.delta.cast_unsigned() != w[3] {
        return 1;
    }
    unlike(sign(d.wrap), w[4])
}

fn wrap_sum(w: [u32; 40]) -> u64 {
    unlike(sign(wrap_of(w[1]).add(wrap_of(w[2]))), w[3])
}

fn scale(w: [u32; 40]) -> u64 {
    let y = scaled(w[1], w[2], w[3]);
    if in_crate(y, w[2], w[3]) != w[4] {
        return 1;
    }
    unlike(y, w[5])
}

fn unwrap_step(w: [u32; 40]) -> u64 {
    let mut u = Unwrapper {
        y: double(w[1], w[2]).cast_signed(),
    };
    let dx = u.process(w[3].cast_signed());
    if dx.cast_unsigned() != w[4] {
        return 1;
    }
    unlike_double(u.y.cast_unsigned(), double(w[5], w[6]))
}

fn turns(w: [u32; 40]) -> u64 {
    let u = Unwrapper {
        y: double(w[1], w[2]).cast_signed(),
    };
    if u.wraps().cast_unsigned() != w[3] {
        return 1;
    }
    unlike(u.phase().cast_unsigned(), w[4])
}

fn clamp_step(w: [u32; 40]) -> u64 {
    let mut c = ClampWrap {
        x0: w[1].cast_signed(),
        clamp: wrap_of(w[2]),
    };
    let y = c.process(w[3].cast_signed());
    if y.cast_unsigned() != w[4] {
        return 1;
    }
    if c.x0.cast_unsigned() != w[5] {
        return 1;
    }
    unlike(sign(c.clamp), w[6])
}

// What a run steps, the generator that feeds it, and what it answers: its digest so far, or a count. Of scaled words
// also the digest of what the crate gives, and how many it clips otherwise.
#[derive(Clone, Copy)]
struct Running {
    unwrapper: Unwrapper,
    clamp: ClampWrap,
    draws: u64,
    answer: u64,
    theirs: u64,
    clipped: u64,
}

// From y, and from a clamp of zero.
fn started(seed: u32, y: u64) -> Running {
    Running {
        unwrapper: Unwrapper { y: y.cast_signed() },
        clamp: ClampWrap {
            x0: 0,
            clamp: Wrap::None,
        },
        draws: seed as u64,
        answer: 0,
        theirs: 0,
        clipped: 0,
    }
}

fn difference_turn(r: &mut Running) {
    let y = spread(r.draws);
    let x = spread(y.state);
    let o = overflowing_sub(y.value.cast_signed(), x.value.cast_signed());
    r.draws = x.state;
    r.answer = digest(digest(r.answer, o.delta.cast_unsigned()), sign(o.wrap));
}

// Near: hi is first shifted to where the crate's clip begins.
fn scale_turn(r: &mut Running, near: bool) {
    let lo = spread(r.draws);
    let hi = spread(lo.state);
    let k = draw(hi.state);
    let shift = 1 + k.value % 32;
    let high = placed(hi.value, shift, near);
    let y = scaled(lo.value, high, shift);
    let theirs = in_crate(y, high, shift);
    r.draws = k.state;
    r.answer = digest(r.answer, y);
    r.theirs = digest(r.theirs, theirs);
    r.clipped = r.clipped.wrapping_add(unlike(y, theirs));
}

fn placed(hi: u32, shift: u32, near: bool) -> u32
    requires { (1 ≤ shift) × (shift ≤ 32) }
{
    if near {
        return (hi.cast_signed() >> (32 - shift)).cast_unsigned();
    }
    hi
}

fn unwrap_turn(r: &mut Running) {
    let x = spread(r.draws);
    let dx = r.unwrapper.process(x.value.cast_signed());
    r.draws = x.state;
    r.answer = digest(r.answer, dx.cast_unsigned());
    r.answer = digest(r.answer, r.unwrapper.wraps().cast_unsigned());
    r.answer = digest(r.answer, r.unwrapper.phase().cast_unsigned());
}

fn clamp_turn(r: &mut Running) {
    let x = spread(r.draws);
    let y = r.clamp.process(x.value.cast_signed());
    r.draws = x.state;
    r.answer = digest(r.answer, y.cast_unsigned());
}

// 1 where the scaled value steps back from hi, lo to the next larger pair.
fn steps_back(lo: u32, hi: u32, shift: u32) -> u64 {
    if lo == 0x7fff_ffff {
        if hi == 0x7fff_ffff {
            return 0;
        }
        return before(
            scaled(0x8000_0000, hi.wrapping_add(1), shift),
            scaled(lo, hi, shift),
        );
    }
    before(scaled(lo.wrapping_add(1), hi, shift), scaled(lo, hi, shift))
}

fn before(a: u32, b: u32) -> u64 {
    if a.cast_signed() < b.cast_signed() {
        1
    } else {
        0
    }
}

// Counts where neighbours, near the crate's clip or not, step back.
fn monotone_turn(r: &mut Running, near: bool) {
    let lo = spread(r.draws);
    let hi = spread(lo.state);
    let k = draw(hi.state);
    let shift = 1 + k.value % 32;
    let back = steps_back(lo.value, placed(hi.value, shift, near), shift);
    r.draws = k.state;
    r.answer = r.answer.wrapping_add(back);
}

// Turn number i of a run with this code.
fn turn(r: &mut Running, code: u32, i: u32) {
    match code {
        7 => difference_turn(r),
        8 => scale_turn(r, false),
        9 => scale_turn(r, true),
        10 => unwrap_turn(r),
        11 => clamp_turn(r),
        _ => monotone_turn(r, i % 2 == 0),
    }
}

fn run(code: u32, first: Running, steps: u32) -> Running {
    let mut r = first;
    for i in 0..steps {
        turn(&mut r, code, i);
    }
    r
}

// The run of a line: what it answers, and the state after it.
fn long_run(w: [u32; 40]) -> u64 {
    let r = run(w[0], started(w[1], double(w[3], w[4])), w[2]);
    let d = match w[0] {
        10 => digest_double(r.answer, r.unwrapper.y.cast_unsigned()),
        11 => digest(
            digest(r.answer, r.clamp.x0.cast_unsigned()),
            sign(r.clamp.clamp),
        ),
        _ => r.answer,
    };
    unlike_double(d, double(w[5], w[6]))
}

// The run of a line of scaled words: the digests of the crate's and of ours, and how many the crate clips otherwise.
fn scale_run(w: [u32; 40]) -> u64 {
    let r = run(w[0], started(w[1], 0), w[2]);
    if r.theirs != double(w[3], w[4]) {
        return 1;
    }
    if r.answer != double(w[5], w[6]) {
        return 1;
    }
    unlike_double(r.clipped, double(0, w[7]))
}

// 1 where the line differs from what the proved function gives.
fn differs(w: [u32; 40]) -> u64 {
    match w[0] {
        1 => difference(w),
        2 => wrap_sum(w),
        3 | 12 => scale(w),
        4 => unwrap_step(w),
        5 => turns(w),
        6 => clamp_step(w),
        8 | 9 => scale_run(w),
        _ => long_run(w),
    }
}

// How many cases a line stands for: the steps of a run, else one.
fn weight(w: [u32; 40]) -> u64 {
    match w[0] {
        7..=11 => double(0, w[2]),
        _ => 1,
    }
}

// For how many of a line's cases the crate's clip gives another number.
fn clipped(w: [u32; 40]) -> u64 {
    match w[0] {
        3 | 12 => unlike(w[4], w[5]),
        8 | 9 => double(0, w[7]),
        _ => 0,
    }
}

// All lines with this code: tells how many of its cases the crate's clip changes.
fn compare(rt: &impl Print, text: &[u8], code: u32, name: &[u8]) -> io::Result<u64> {
    let mut cases: u64 = 0;
    let mut differ: u64 = 0;
    let mut clips: u64 = 0;
    for i in 0..LINES {
        let w = line(text, i * WIDTH);
        if w[0] == code {
            cases = cases.wrapping_add(weight(w));
            differ = differ.wrapping_add(differs(w));
            clips = clips.wrapping_add(clipped(w));
        }
    }
    report(rt, name, cases, differ)?;
    Ok(clips)
}

fn compare_scale(rt: &impl Print, text: &[u8], code: u32, name: &[u8]) -> io::Result<()> {
    let clips = compare(rt, text, code, name)?;
    println!(rt; "  of which the crate's clip gives another number: {clips}")
}

fn main(rt: HostRuntime) -> io::Result<()> {
    let mut space = [0u8; 200000];
    let n = read_full(&mut rt.stdin(), &mut space)?;
    let text = &space[..n];
    compare(&rt, text, 1, b"overflowing_sub")?;
    compare(&rt, text, 2, b"Wrap addition")?;
    compare_scale(&rt, text, 3, b"saturating_scale")?;
    compare_scale(
        &rt,
        text,
        12,
        b"saturating_scale, the least pairs of each kind that the crate clips otherwise",
    )?;
    compare(&rt, text, 4, b"Unwrapper step")?;
    compare(&rt, text, 5, b"Unwrapper turns and phase")?;
    compare(&rt, text, 6, b"ClampWrap step")?;
    compare(&rt, text, 7, b"overflowing_sub, run")?;
    compare_scale(&rt, text, 8, b"saturating_scale, run")?;
    compare_scale(&rt, text, 9, b"saturating_scale near the crate's clip, run")?;
    compare(&rt, text, 10, b"Unwrapper, runs")?;
    compare(&rt, text, 11, b"ClampWrap, run")?;
    report(
        &rt,
        b"saturating_scale monotone at every shift, run",
        1000000,
        run(13, started(17, 0), 1000000).answer,
    )?;
    Ok(())
}
