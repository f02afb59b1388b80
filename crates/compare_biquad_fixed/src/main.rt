// Runs the proved wide and dithered biquads over the Rust's stored answers (oracle/README.md, fixed) and prints
// what differs.

#![tactic(auto)]

use biquad_fixed::coefficients::{Biquad, BiquadClamp};
use biquad_fixed::dither::DirectForm1Dither;
use biquad_fixed::wide::DirectForm1Wide;
use blocks::Refusal;
use rust_answers::input::read_full;
use rust_answers::lines::{double, line, report, tally, unlike_double, unlike_words};
use rust_answers::runs::{digest, digest_words, spread};
use std::io;

const LINES: u32 = 900;

const WIDTH: u32 = 24;

// A state of either form: read from a line's words from 10 on, written as six, and taken on by a filter, clamped or not.
trait Form: Copy {
    fn of(w: &[u32; 40]) -> Self;

    fn words(self) -> [u32; 6];

    fn step(&mut self, c: BiquadClamp, x: i32, clamp: bool) -> Result<i32, Refusal>;

    fn block(
        &mut self,
        c: BiquadClamp,
        xs: &[i32],
        ys: &mut [i32],
        clamp: bool,
    ) -> Result<(), Refusal>;
}

fn long(high: u32, low: u32) -> i64 {
    double(high, low).cast_signed()
}

fn high(x: i64) -> u32 {
    (x.cast_unsigned() / 4294967296) as u32
}

fn low(x: i64) -> u32 {
    (x.cast_unsigned() % 4294967296) as u32
}

impl Form for DirectForm1Wide {
    fn of(w: &[u32; 40]) -> DirectForm1Wide {
        DirectForm1Wide {
            x1: w[10].cast_signed(),
            x2: w[11].cast_signed(),
            y1: long(w[12], w[13]),
            y2: long(w[14], w[15]),
        }
    }

    fn words(self) -> [u32; 6] {
        [
            self.x1.cast_unsigned(),
            self.x2.cast_unsigned(),
            high(self.y1),
            low(self.y1),
            high(self.y2),
            low(self.y2),
        ]
    }

    fn step(&mut self, c: BiquadClamp, x: i32, clamp: bool) -> Result<i32, Refusal> {
        if clamp {
            return self.process_clamp(c, x);
        }
        self.process(c.coeff, x)
    }

    fn block(
        &mut self,
        c: BiquadClamp,
        xs: &[i32],
        ys: &mut [i32],
        clamp: bool,
    ) -> Result<(), Refusal> {
        if clamp {
            return self.block_clamp(c, xs, ys);
        }
        DirectForm1Wide::block(self, c.coeff, xs, ys)
    }
}

impl Form for DirectForm1Dither {
    fn of(w: &[u32; 40]) -> DirectForm1Dither {
        DirectForm1Dither {
            x1: w[10].cast_signed(),
            x2: w[11].cast_signed(),
            y1: w[12].cast_signed(),
            y2: w[13].cast_signed(),
            e: w[14],
        }
    }

    fn words(self) -> [u32; 6] {
        [
            self.x1.cast_unsigned(),
            self.x2.cast_unsigned(),
            self.y1.cast_unsigned(),
            self.y2.cast_unsigned(),
            self.e,
            0,
        ]
    }

    fn step(&mut self, c: BiquadClamp, x: i32, clamp: bool) -> Result<i32, Refusal> {
        if clamp {
            return self.process_clamp(c, x);
        }
        self.process(c.coeff, x)
    }

    fn block(
        &mut self,
        c: BiquadClamp,
        xs: &[i32],
        ys: &mut [i32],
        clamp: bool,
    ) -> Result<(), Refusal> {
        if clamp {
            return self.block_clamp(c, xs, ys);
        }
        DirectForm1Dither::block(self, c.coeff, xs, ys)
    }
}

// The filter of a line, with f fraction bits.
fn filter_of(w: &[u32; 40], f: u32) -> BiquadClamp {
    BiquadClamp {
        coeff: Biquad {
            b0: w[2].cast_signed(),
            b1: w[3].cast_signed(),
            b2: w[4].cast_signed(),
            a1: w[5].cast_signed(),
            a2: w[6].cast_signed(),
            f,
        },
        u: w[7].cast_signed(),
        min: w[8].cast_signed(),
        max: w[9].cast_signed(),
    }
}

// The words of a line's filter and state, drawn by spread from the seed, the limits in order; the generator's state
// after.
fn drawn(seed: u32) -> ([u32; 40], u64) {
    let mut words = [0u32; 40];
    let mut state = seed as u64;
    for word in &mut words[2..16] {
        let next = spread(state);
        state = next.state;
        *word = next.value;
    }
    if words[9].cast_signed() < words[8].cast_signed() {
        words.swap(8, 9);
    }
    (words, state)
}

// An answer as a word: the output's bits, or the refusal's number.
fn word(out: Result<i32, Refusal>) -> u32 {
    match out {
        Ok(y) => y.cast_unsigned(),
        Err(r) => r.number(),
    }
}

fn case<F: Form>(w: &[u32; 40], clamp: bool) -> u64 {
    let mut state = F::of(w);
    let out = state.step(filter_of(w, w[1]), w[16].cast_signed(), clamp);
    if word(out) != w[17] {
        return 1;
    }
    unlike_words(&state.words(), &w[18..24])
}

// A state, the generator, and the digest of the outputs so far.
#[derive(Drop)]
struct Running<F> {
    state: F,
    draws: u64,
    digest: u64,
}

impl<F: Form> Running<F> {
    fn draw(&mut self) -> i32 {
        let x = spread(self.draws);
        self.draws = x.state;
        x.value.cast_signed()
    }

    fn steps(&mut self, c: BiquadClamp, turns: u32, clamp: bool) {
        for _ in 0..turns {
            let x = self.draw();
            let out = self.state.step(c, x, clamp);
            self.digest = digest(self.digest, word(out));
        }
    }

    // Blocks of 1000 inputs.
    fn blocks(&mut self, c: BiquadClamp, turns: u32, clamp: bool) {
        let mut xs = [0i32; 1000];
        let mut ys = [0i32; 1000];
        for _ in 0..turns {
            for x in &mut xs {
                *x = self.draw();
            }
            let _ = self.state.block(c, &xs, &mut ys, clamp);
            for &y in &ys {
                self.digest = digest(self.digest, y.cast_unsigned());
            }
        }
    }

    // The digest of the outputs, then the state.
    fn whole(&self) -> u64 {
        digest_words(self.digest, &self.state.words())
    }
}

// A run of steps, everything drawn, and the same in blocks of 1000.
fn drawn_runs<F: Form>(w: &[u32; 40], clamp: bool) -> u64 {
    let (words, draws) = drawn(w[2]);
    let c = filter_of(&words, w[1]);
    let said = double(w[4], w[5]);
    let mut steps = Running {
        state: F::of(&words),
        draws,
        digest: 0,
    };
    steps.steps(c, w[3], clamp);
    let mut blocks = Running {
        state: F::of(&words),
        draws,
        digest: 0,
    };
    blocks.blocks(c, w[3] / 1000, clamp);
    unlike_double(steps.whole(), said).wrapping_add(unlike_double(blocks.whole(), said))
}

// A tame run from zero, in blocks of 1000.
fn tame_run<F: Form>(w: &[u32; 40], clamp: bool) -> u64 {
    let mut r = Running {
        state: F::of(&[0; 40]),
        draws: double(0, w[10]),
        digest: 0,
    };
    r.blocks(filter_of(w, w[1]), w[11] / 1000, clamp);
    unlike_double(r.whole(), double(w[12], w[13]))
}

// 1 where the line differs from what the proved function gives. Of each kind an even code is the clamped filter's.
fn differs(w: &[u32; 40]) -> u64 {
    let clamp = w[0] % 2 == 0;
    match w[0] {
        1 | 2 => case::<DirectForm1Wide>(w, clamp),
        3 | 4 => case::<DirectForm1Dither>(w, clamp),
        5 | 6 => drawn_runs::<DirectForm1Wide>(w, clamp),
        7 | 8 => drawn_runs::<DirectForm1Dither>(w, clamp),
        9 | 10 => tame_run::<DirectForm1Wide>(w, clamp),
        _ => tame_run::<DirectForm1Dither>(w, clamp),
    }
}

// A clamped filter of no gain with f fraction bits and these limits.
fn silent(f: u32, min: i32, max: i32) -> BiquadClamp {
    BiquadClamp {
        coeff: Biquad {
            b0: 0,
            b1: 0,
            b2: 0,
            a1: 0,
            a2: 0,
            f,
        },
        u: 0,
        min,
        max,
    }
}

// The number of a refused step of it from zero; 0, its output, where it is accepted.
fn step_number<F: Form>(f: u32, min: i32, max: i32) -> u32 {
    let mut state = F::of(&[0; 40]);
    word(state.step(silent(f, min, max), 0, true))
}

// The number of a refused block of these inputs and two outputs; 0 where it is accepted.
fn block_number<F: Form>(f: u32, min: i32, max: i32, xs: &[i32]) -> u32 {
    let mut ys = [0i32; 2];
    let mut state = F::of(&[0; 40]);
    match state.block(silent(f, min, max), xs, &mut ys, true) {
        Ok(()) => 0,
        Err(r) => r.number(),
    }
}

// Steps: 40 at the bounds and before 41; equal limits are in order. Of 10 cases, how many differ from document 01.
fn step_refusals() -> u64 {
    dither_step_refusals(wide_step_refusals())
}

fn wide_step_refusals() -> u64 {
    let mut n: u64 = 0;
    n = tally(n, step_number::<DirectForm1Wide>(0, -1, 1), 0);
    n = tally(n, step_number::<DirectForm1Wide>(31, 0, 0), 0);
    n = tally(n, step_number::<DirectForm1Wide>(32, -1, 1), 40);
    n = tally(n, step_number::<DirectForm1Wide>(32, 1, -1), 40);
    tally(n, step_number::<DirectForm1Wide>(31, 1, -1), 41)
}

// The count before, and those of the dithered form.
fn dither_step_refusals(before: u64) -> u64 {
    let mut n = before;
    n = tally(n, step_number::<DirectForm1Dither>(0, -1, 1), 40);
    n = tally(n, step_number::<DirectForm1Dither>(1, -1, 1), 0);
    n = tally(n, step_number::<DirectForm1Dither>(31, -1, 1), 0);
    n = tally(n, step_number::<DirectForm1Dither>(32, 1, -1), 40);
    tally(n, step_number::<DirectForm1Dither>(1, 1, -1), 41)
}

// Blocks: 31 before 40 before 41. Of 8 cases, how many differ from document 01.
fn block_refusals() -> u64 {
    dither_block_refusals(wide_block_refusals())
}

fn wide_block_refusals() -> u64 {
    let two = [0i32; 2];
    let three = [0i32; 3];
    let mut n: u64 = 0;
    n = tally(n, block_number::<DirectForm1Wide>(32, 1, -1, &three), 31);
    n = tally(n, block_number::<DirectForm1Wide>(32, 1, -1, &two), 40);
    n = tally(n, block_number::<DirectForm1Wide>(0, 1, -1, &two), 41);
    tally(n, block_number::<DirectForm1Wide>(0, -1, 1, &two), 0)
}

// The count before, and those of the dithered form.
fn dither_block_refusals(before: u64) -> u64 {
    let two = [0i32; 2];
    let three = [0i32; 3];
    let mut n = before;
    n = tally(n, block_number::<DirectForm1Dither>(0, 1, -1, &three), 31);
    n = tally(n, block_number::<DirectForm1Dither>(0, 1, -1, &two), 40);
    n = tally(n, block_number::<DirectForm1Dither>(1, 1, -1, &two), 41);
    tally(n, block_number::<DirectForm1Dither>(1, -1, 1, &two), 0)
}

// How many cases a line stands for: the steps of a run, else one.
fn weight(w: &[u32; 40]) -> u64 {
    if w[0] < 5 {
        return 1;
    }
    if w[0] < 9 {
        return double(0, w[3]);
    }
    double(0, w[11])
}

// All lines with this code.
fn compare(rt: &impl Print, text: &[u8], code: u32, name: &[u8]) -> io::Result<()> {
    let mut cases: u64 = 0;
    let mut differ: u64 = 0;
    for i in 0..LINES {
        let w = line(text, i * WIDTH);
        if w[0] == code {
            cases = cases.wrapping_add(weight(&w));
            differ = differ.wrapping_add(differs(&w));
        }
    }
    report(rt, name, cases, differ)?;
    Ok(())
}

fn compare_steps(rt: &impl Print, text: &[u8]) -> io::Result<()> {
    compare(rt, text, 1, b"wide step")?;
    compare(rt, text, 2, b"wide clamped step")?;
    compare(rt, text, 3, b"dither step")?;
    compare(rt, text, 4, b"dither clamped step")?;
    Ok(())
}

fn compare_runs(rt: &impl Print, text: &[u8]) -> io::Result<()> {
    compare(rt, text, 5, b"wide, runs by steps and by blocks")?;
    compare(rt, text, 6, b"wide clamped, runs by steps and by blocks")?;
    compare(rt, text, 7, b"dither, runs by steps and by blocks")?;
    compare(rt, text, 8, b"dither clamped, runs by steps and by blocks")?;
    Ok(())
}

fn compare_tame_runs(rt: &impl Print, text: &[u8]) -> io::Result<()> {
    compare(rt, text, 9, b"wide, tame runs in blocks")?;
    compare(rt, text, 10, b"wide clamped, tame runs in blocks")?;
    compare(rt, text, 11, b"dither, tame runs in blocks")?;
    compare(rt, text, 12, b"dither clamped, tame runs in blocks")?;
    Ok(())
}

fn main(rt: HostRuntime) -> io::Result<()> {
    let mut space = [0u8; 200000];
    let n = read_full(&mut rt.stdin(), &mut space)?;
    let text = &space[..n];
    compare_steps(&rt, text)?;
    compare_runs(&rt, text)?;
    compare_tame_runs(&rt, text)?;
    report(&rt, b"refusals of steps", 10, step_refusals())?;
    report(&rt, b"refusals of blocks", 8, block_refusals())?;
    Ok(())
}
