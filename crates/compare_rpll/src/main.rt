// Runs the proved reciprocal loop over the Rust's stored answers (oracle/README.md, rpll) and prints what differs.

#![tactic(auto)]

use blocks::Refusal;
use rpll::{Estimate, RPLL, RPLLConfig};
use rust_answers::input::read_full;
use rust_answers::lines::{double, line, report, unlike, unlike_words};
use rust_answers::runs::{digest, digest_words, draw, spread};
use std::io;

const LINES: u32 = 1300;

const WIDTH: u32 = 16;

const CONFIGURATIONS: u32 = 16777216;

const BLOCK: usize = 1000;

fn configured(dt2: u32, shift_frequency: u32, shift_phase: u32) -> RPLLConfig {
    RPLLConfig {
        dt2: (dt2 % 256) as u8,
        shift_frequency: (shift_frequency % 256) as u8,
        shift_phase: (shift_phase % 256) as u8,
    }
}

fn configuration(w: [u32; 40]) -> RPLLConfig {
    configured(w[1], w[2], w[3])
}

// The state before a line's step.
fn state_before(w: [u32; 40]) -> RPLL {
    RPLL {
        x: w[4].cast_signed(),
        ff: w[5],
        f: w[6],
        y: w[7].cast_signed(),
    }
}

fn zero() -> RPLL {
    RPLL {
        x: 0,
        ff: 0,
        f: 0,
        y: 0,
    }
}

// The four words of a state, in the order of a line.
fn words_of(s: RPLL) -> [u32; 4] {
    [
        s.x.cast_unsigned(),
        s.ff,
        s.frequency(),
        s.phase().cast_unsigned(),
    ]
}

// The digest d grown by phase and frequency, or by the number of a refusal.
fn digest_estimate(d: u64, answer: Result<Estimate, Refusal>) -> u64 {
    match answer {
        Ok(e) => digest(
            digest(d, e.phase.cast_unsigned()),
            e.frequency.cast_unsigned(),
        ),
        Err(refusal) => digest(d, refusal.number()),
    }
}

fn step(w: [u32; 40]) -> u64 {
    let mut s = state_before(w);
    let x = (w[8] != 0).then_some(w[9].cast_signed());
    let Ok(e) = configuration(w).process(&mut s, x) else {
        return 1;
    };
    if e.phase.cast_unsigned() != w[10] {
        return 1;
    }
    if e.frequency.cast_unsigned() != w[11] {
        return 1;
    }
    unlike_words(&words_of(s), &w[12..16])
}

// A loop that runs, the generator that feeds it, the next timestamp of a steady reference, and the digest so far.
#[derive(Clone, Copy)]
struct Running {
    state: RPLL,
    draws: u64,
    next: u32,
    digest: u64,
}

// A step, whose answer is digested.
fn process(r: &mut Running, c: RPLLConfig, x: Option<i32>) {
    let answer = c.process(&mut r.state, x);
    r.digest = digest_estimate(r.digest, answer);
}

// A step with a timestamp where the draw is odd, else without.
fn drawn_turn(r: &mut Running, c: RPLLConfig) {
    let u = draw(r.draws);
    if u.value % 2 == 0 {
        r.draws = u.state;
        process(r, c, None);
        return;
    }
    let x = spread(u.state);
    r.draws = x.state;
    process(r, c, Some(x.value.cast_signed()));
}

// A step on the timestamps of a steady reference.
fn steady_turn(r: &mut Running, c: RPLLConfig, now: u32, period: u32) {
    let due = now.wrapping_sub(r.next) < 0x8000_0000;
    process(r, c, due.then_some(r.next.cast_signed()));
    if due {
        r.next = r.next.wrapping_add(period);
    }
}

// The length of a step.
fn interval(c: RPLLConfig) -> u32 {
    1u32.wrapping_shl(u32::from(c.dt2))
}

// Step number i of a line's run.
fn turn(r: &mut Running, w: [u32; 40], i: u32) {
    let c = configuration(w);
    if w[0] == 3 {
        steady_turn(r, c, i.wrapping_add(1).wrapping_mul(interval(c)), w[8]);
        return;
    }
    drawn_turn(r, c);
}

// A line's run from zero.
fn run(w: [u32; 40], steps: u32) -> Running {
    let mut r = Running {
        state: zero(),
        draws: double(0, w[4]),
        next: w[4],
        digest: 0,
    };
    for i in 0..steps {
        turn(&mut r, w, i);
    }
    r
}

// 1 where a run's digest differs, or where a steady one's last frequency is not the line's or 200 or more off the
// reference's.
fn long_run(w: [u32; 40]) -> u64 {
    let r = run(w, w[5]);
    let s = r.state;
    if digest_words(r.digest, &words_of(s)) != double(w[6], w[7]) {
        return 1;
    }
    if w[0] == 2 {
        return 0;
    }
    if 398 < s.frequency().wrapping_sub(w[10]).wrapping_add(199) {
        return 1;
    }
    unlike(s.frequency(), w[9])
}

// A step's flag and number, and the generator after them. A step without a timestamp has a number too.
#[derive(Drop)]
struct Stamp {
    there: bool,
    x: i32,
    draws: u64,
}

// As `drawn_turn` draws it.
fn drawn_stamp(draws: u64) -> Stamp {
    let u = draw(draws);
    if u.value % 2 == 0 {
        return Stamp {
            there: false,
            x: u.value.cast_signed(),
            draws: u.state,
        };
    }
    let x = spread(u.state);
    Stamp {
        there: true,
        x: x.value.cast_signed(),
        draws: x.state,
    }
}

// The flags and numbers of a block; gives the generator after them.
fn fill(there: &mut [bool; BLOCK], xs: &mut [i32; BLOCK], draws: u64) -> u64 {
    let mut g = draws;
    for i in 0..BLOCK {
        let s = drawn_stamp(g);
        there[i] = s.there;
        xs[i] = s.x;
        g = s.draws;
    }
    g
}

// The digest d grown by a block's phases and frequencies.
fn digest_block(d: u64, ys: &[i32; BLOCK], fs: &[i32; BLOCK]) -> u64 {
    let mut e = d;
    for i in 0..BLOCK {
        e = digest(digest(e, ys[i].cast_unsigned()), fs[i].cast_unsigned());
    }
    e
}

// A thousand drawn steps as a block.
fn drawn_block(r: &mut Running, c: RPLLConfig) {
    let mut there = [false; BLOCK];
    let mut xs = [0i32; BLOCK];
    let mut ys = [0i32; BLOCK];
    let mut fs = [0i32; BLOCK];
    r.draws = fill(&mut there, &mut xs, r.draws);
    let _ = c.block(&mut r.state, &there, &xs, &mut ys, &mut fs);
    r.digest = digest_block(r.digest, &ys, &fs);
}

// A line's run from zero, by blocks.
fn run_by_blocks(w: [u32; 40], blocks: u32) -> Running {
    let mut r = Running {
        state: zero(),
        draws: double(0, w[4]),
        next: w[4],
        digest: 0,
    };
    for _ in 0..blocks {
        drawn_block(&mut r, configuration(w));
    }
    r
}

// 1 where the digest of a run by blocks differs from that of the Rust's steps.
fn block_run(w: [u32; 40]) -> u64 {
    let r = run_by_blocks(w, w[5] / 1000);
    let s = r.state;
    if digest_words(r.digest, &words_of(s)) != double(w[6], w[7]) {
        return 1;
    }
    0
}

// 1 where a block of unlike lengths is not refused with 31, in a configuration that is refused too.
fn unlike_differs(there: &[bool], xs: &[i32], ys: &mut [i32], fs: &mut [i32]) -> u64 {
    match configured(31, 0, 0).block(&mut zero(), there, xs, ys, fs) {
        Ok(()) => 1,
        Err(refusal) => unlike(refusal.number(), 31),
    }
}

// Each of the four slices one shorter than the others.
fn lengths_differ() -> u64 {
    let there = [true; 3];
    let xs = [7i32; 3];
    let mut ys = [0i32; 3];
    let mut fs = [0i32; 3];
    let mut two = [0i32; 2];
    let flags = unlike_differs(&there[1..], &xs, &mut ys, &mut fs);
    let stamps = unlike_differs(&there, &xs[1..], &mut ys, &mut fs);
    let phases = unlike_differs(&there, &xs, &mut two, &mut fs);
    let frequencies = unlike_differs(&there, &xs, &mut ys, &mut two);
    flags
        .wrapping_add(stamps)
        .wrapping_add(phases.wrapping_add(frequencies))
}

// 1 where the line differs from what the proved function gives.
fn differs(w: [u32; 40]) -> u64 {
    match w[0] {
        1 => step(w),
        2 => long_run(w).wrapping_add(block_run(w)),
        _ => long_run(w),
    }
}

// How many cases a line stands for: the steps of a run, else one.
fn weight(w: [u32; 40]) -> u64 {
    if w[0] == 1 {
        return 1;
    }
    double(0, w[5])
}

// All lines with this code.
fn compare(rt: &impl Print, text: &[u8], code: u32, name: &[u8]) -> io::Result<()> {
    let mut cases: u64 = 0;
    let mut differ: u64 = 0;
    for i in 0..LINES {
        let w = line(text, i * WIDTH);
        if w[0] == code {
            cases = cases.wrapping_add(weight(w));
            differ = differ.wrapping_add(differs(w));
        }
    }
    report(rt, name, cases, differ)?;
    Ok(())
}

// 01's number for a configuration, 0 where it has none.
fn rule(dt2: u32, shift_frequency: u32, shift_phase: u32) -> u32 {
    if dt2 > 30 {
        return 60;
    }
    if shift_frequency <= dt2 || shift_frequency > 32 {
        return 61;
    }
    if shift_phase < dt2 || shift_phase > dt2 + 31 {
        return 62;
    }
    0
}

// 1 where configuration number i is not refused as 01 has it, or where a refused call changed the state s.
fn configuration_differs(s: RPLL, i: u32) -> u64 {
    let dt2 = i / 65536;
    let shift_frequency = i / 256 % 256;
    let shift_phase = i % 256;
    let number = rule(dt2, shift_frequency, shift_phase);
    let mut after = s;
    let Err(refusal) = configured(dt2, shift_frequency, shift_phase).process(&mut after, Some(5))
    else {
        return unlike(0, number);
    };
    if refusal.number() != number {
        return 1;
    }
    unlike_words(&words_of(s), &words_of(after))
}

// How many configurations are not refused as 01 has it.
fn refusals_differ(s: RPLL) -> u64 {
    let mut differ: u64 = 0;
    for i in 0..CONFIGURATIONS {
        differ = differ.wrapping_add(configuration_differs(s, i));
    }
    differ
}

fn main(rt: HostRuntime) -> io::Result<()> {
    let mut space = [0u8; 200000];
    let n = read_full(&mut rt.stdin(), &mut space)?;
    let text = &space[..n];
    compare(&rt, text, 1, b"RPLL step")?;
    compare(&rt, text, 2, b"RPLL, runs, by steps and by blocks")?;
    compare(
        &rt,
        text,
        3,
        b"RPLL lock-in within 200 of the reference's frequency, runs",
    )?;
    let s = RPLL {
        x: 1,
        ff: 2,
        f: 3,
        y: 4,
    };
    report(
        &rt,
        b"RPLL configurations refused with 60, 61, 62 or not at all",
        CONFIGURATIONS as u64,
        refusals_differ(s),
    )?;
    report(
        &rt,
        b"RPLL block of unlike lengths, refused with 31",
        4,
        lengths_differ(),
    )?;
    Ok(())
}
