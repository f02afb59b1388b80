// Runs the proved loop over the Rust's stored answers (oracle/README.md, pll) and prints what differs.

#![tactic(auto)]

ghost use Rattle.std.specs.Prelude.{◌≤◌};

use pll::{PLL, PLLState};
use rust_answers::input::read_full;
use rust_answers::lines::{double, line, report, tally, unlike, unlike_words};
use rust_answers::runs::{digest, digest_words, draw, spread};
use std::io;
use unwrap::clamp_wrap::ClampWrap;
use unwrap::wrapping::Wrap;

const LINES: u32 = 900;

const WIDTH: u32 = 24;

const BLOCK: usize = 1000;

// The word of a clamp's sign, as the stored answers have it.
fn sign(w: Wrap) -> u32 {
    match w {
        Wrap::Negative => 0xffff_ffff,
        Wrap::None => 0,
        Wrap::Positive => 1,
    }
}

fn wrap_of(sign: u32) -> Wrap {
    match sign {
        0 => Wrap::None,
        1 => Wrap::Positive,
        _ => Wrap::Negative,
    }
}

// The coefficients at word number at of a line.
fn coefficients(w: [u32; 40], at: usize) -> PLL
    requires { at ≤ 37 }
{
    PLL {
        b0: w[at].cast_signed(),
        b1: w[at + 1].cast_signed(),
        a1: w[at + 2].cast_signed(),
    }
}

// The state before a line's step.
fn state_before(w: [u32; 40]) -> PLLState {
    let clamp = ClampWrap {
        x0: w[4].cast_signed(),
        clamp: wrap_of(w[5]),
    };
    PLLState {
        clamp,
        z0: w[6].cast_signed(),
        y0: w[7].cast_signed(),
        f0: double(w[8], w[9]).cast_signed(),
        f: double(w[10], w[11]).cast_signed(),
        y: w[12].cast_signed(),
    }
}

fn zero() -> PLLState {
    let clamp = ClampWrap {
        x0: 0,
        clamp: Wrap::None,
    };
    PLLState {
        clamp,
        z0: 0,
        y0: 0,
        f0: 0,
        f: 0,
        y: 0,
    }
}

fn high(x: i64) -> u32 {
    (x.cast_unsigned() / 0x1_0000_0000) as u32
}

fn low(x: i64) -> u32 {
    (x.cast_unsigned() % 0x1_0000_0000) as u32
}

// The nine words of a state, in the order of a line.
fn words_of(s: PLLState) -> [u32; 9] {
    [
        s.clamp.x0.cast_unsigned(),
        sign(s.clamp.clamp),
        s.z0.cast_unsigned(),
        s.y0.cast_unsigned(),
        high(s.f0),
        low(s.f0),
        high(s.f),
        low(s.f),
        s.y.cast_unsigned(),
    ]
}

// 1 where the phase y or the state after it is not the line's.
fn tracked_differs(w: [u32; 40], y: i32, after: PLLState) -> u64 {
    if y.cast_unsigned() != w[14] {
        return 1;
    }
    unlike_words(&words_of(after), &w[15..24])
}

fn step(w: [u32; 40]) -> u64 {
    let mut s = state_before(w);
    let y = coefficients(w, 1).process(&mut s, w[13].cast_signed());
    tracked_differs(w, y, s)
}

fn predict(w: [u32; 40]) -> u64 {
    let mut s = state_before(w);
    let y = s.predict();
    tracked_differs(w, y, s)
}

fn readers(w: [u32; 40]) -> u64 {
    let s = state_before(w);
    if s.phase().cast_unsigned() != w[14] {
        return 1;
    }
    unlike(s.frequency().cast_unsigned(), w[15])
}

// A loop that runs, the generator that feeds it, and the digest of its phases and frequencies.
#[derive(Clone, Copy)]
struct Running {
    state: PLLState,
    draws: u64,
    digest: u64,
}

// After a step: its phase y and the frequency after it are digested.
fn tracked(r: &mut Running, y: i32) {
    r.digest = digest(r.digest, y.cast_unsigned());
    r.digest = digest(r.digest, r.state.frequency().cast_unsigned());
}

// A step on a spread input.
fn spread_turn(r: &mut Running, p: PLL) {
    let x = spread(r.draws);
    r.draws = x.state;
    let y = p.process(&mut r.state, x.value.cast_signed());
    tracked(r, y);
}

// A prediction one time in four, else a step with coefficients and input drawn.
fn drawn_turn(r: &mut Running) {
    let u = draw(r.draws);
    r.draws = u.state;
    if u.value % 4 == 0 {
        let y = r.state.predict();
        tracked(r, y);
        return;
    }
    let b0 = spread(u.state);
    let b1 = spread(b0.state);
    let a1 = spread(b1.state);
    let p = PLL {
        b0: b0.value.cast_signed(),
        b1: b1.value.cast_signed(),
        a1: a1.value.cast_signed(),
    };
    r.draws = a1.state;
    spread_turn(r, p);
}

// A step on x.
fn steady_turn(r: &mut Running, p: PLL, x: u32) {
    let y = p.process(&mut r.state, x.cast_signed());
    tracked(r, y);
}

// Step number i of a line's run: on spread inputs, with everything drawn, or on a steady input.
fn turn(r: &mut Running, w: [u32; 40], i: u32) {
    match w[0] {
        4 => spread_turn(r, coefficients(w, 3)),
        5 => drawn_turn(r),
        _ => steady_turn(
            r,
            coefficients(w, 3),
            w[1].wrapping_add(i.wrapping_mul(w[8])),
        ),
    }
}

// A line's run from zero.
fn run(w: [u32; 40], steps: u32) -> Running {
    let mut r = Running {
        state: zero(),
        draws: double(0, w[1]),
        digest: 0,
    };
    for i in 0..steps {
        turn(&mut r, w, i);
    }
    r
}

// 1 where a run's digest differs, or where a steady one's last frequency is not the line's or not minus the input's.
fn long_run(w: [u32; 40]) -> u64 {
    let r = run(w, w[2]);
    let s = r.state;
    if digest_words(r.digest, &words_of(s)) != double(w[6], w[7]) {
        return 1;
    }
    if w[0] < 6 {
        return 0;
    }
    let frequency = s.frequency().cast_unsigned();
    if frequency.wrapping_add(w[8]) != 0 {
        return 1;
    }
    unlike(frequency, w[9])
}

// Spread inputs.
fn fill(xs: &mut [i32; BLOCK], seed: u32) {
    let mut g = seed as u64;
    for i in 0..BLOCK {
        let x = spread(g);
        g = x.state;
        xs[i] = x.value.cast_signed();
    }
}

// How many of the phases ys are not those of steps from zero.
fn steps_differ(p: PLL, xs: &[i32; BLOCK], ys: &[i32; BLOCK]) -> u64 {
    let mut differ: u64 = 0;
    let mut s = zero();
    for i in 0..BLOCK {
        let y = p.process(&mut s, xs[i]);
        differ = tally(differ, y.cast_unsigned(), ys[i].cast_unsigned());
    }
    differ
}

// How many phases of a block from zero are not those of its steps.
fn block_differs(p: PLL) -> u64 {
    let mut xs = [0i32; BLOCK];
    let mut ys = [0i32; BLOCK];
    fill(&mut xs, 7);
    if p.block(&mut zero(), &xs, &mut ys).is_err() {
        return 1;
    }
    steps_differ(p, &xs, &ys)
}

// 1 where a block of unlike lengths is not refused with 31.
fn unlike_differs(p: PLL) -> u64 {
    let xs = [0i32; BLOCK];
    let mut ys = [0i32; BLOCK];
    match p.block(&mut zero(), &xs[1..], &mut ys) {
        Ok(()) => 1,
        Err(refusal) => unlike(refusal.number(), 31),
    }
}

// 1 where the line differs from what the proved function gives.
fn differs(w: [u32; 40]) -> u64 {
    match w[0] {
        1 => step(w),
        2 => predict(w),
        3 => readers(w),
        _ => long_run(w),
    }
}

// How many cases a line stands for: the steps of a run, else one.
fn weight(w: [u32; 40]) -> u64 {
    if w[0] < 4 {
        return 1;
    }
    double(0, w[2])
}

// All lines with this code.
fn compare(rt: &impl Print, text: &[u8], code: u32, name: &[u8]) -> io::Result<()> {
    let mut cases: u64 = 0;
    let mut differ: u64 = 0;
    for i in 0..LINES {
        let w = line(text, i * WIDTH);
        if w[0] == code {
            cases = cases.wrapping_add(weight(w));
            differ = differ.wrapping_add(differs(w));
        }
    }
    report(rt, name, cases, differ)?;
    Ok(())
}

fn main(rt: HostRuntime) -> io::Result<()> {
    let mut space = [0u8; 200000];
    let n = read_full(&mut rt.stdin(), &mut space)?;
    let text = &space[..n];
    compare(&rt, text, 1, b"PLL step")?;
    compare(&rt, text, 2, b"PLL predict")?;
    compare(&rt, text, 3, b"PLL phase and frequency")?;
    compare(&rt, text, 4, b"PLL, runs")?;
    compare(
        &rt,
        text,
        5,
        b"PLL with predict and other coefficients at each step, run",
    )?;
    compare(
        &rt,
        text,
        6,
        b"PLL lock-in to minus the input's frequency, runs",
    )?;
    let p = PLL {
        b0: -67823405,
        b1: 66758037,
        a1: -1079443016,
    };
    report(
        &rt,
        b"PLL block against its steps",
        BLOCK as u64,
        block_differs(p),
    )?;
    report(
        &rt,
        b"PLL block of unlike lengths, refused with 31",
        1,
        unlike_differs(p),
    )?;
    Ok(())
}
