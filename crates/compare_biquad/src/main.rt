// Runs the proved biquads over the Rust's stored answers (oracle/README.md, biquad) and prints what differs.
// Lines of a step call the step, runs call the block.

#![tactic(auto)]

ghost use Rattle.std.specs.Prelude.{◌<◌};

use biquad::biquad::Biquad;
use biquad::biquad_clamp::BiquadClamp;
use biquad::direct_form1::DirectForm1;
use biquad::direct_form2_transposed::DirectForm2Transposed;
use blocks::{Refusal, number};
use rust_answers::doubles::{from_bits, to_bits};
use rust_answers::input::read_full;
use rust_answers::lines::{double, line, report, tally, unlike_double};
use rust_answers::runs::{digest_double, draw};
use std::io;

const LINES: u32 = 600;

const WIDTH: u32 = 37;

// The double at word number at of a line.
fn value(w: [u32; 40], at: usize) -> f64
    requires { at < 39 }
{
    from_bits(double(w[at], w[at + 1]))
}

// 0 where x has the bits at word number at, and any NaN a NaN's, else 1.
fn other(w: [u32; 40], at: usize, x: f64) -> u64
    requires { at < 39 }
{
    unlike_double(to_bits(x), double(w[at], w[at + 1]))
}

fn filter(w: [u32; 40]) -> BiquadClamp {
    BiquadClamp {
        b0: value(w, 1),
        b1: value(w, 3),
        b2: value(w, 5),
        a1: value(w, 7),
        a2: value(w, 9),
        u: value(w, 11),
        min: value(w, 13),
        max: value(w, 15),
    }
}

// Either direct form, as the lines have it.
trait Form: Copy {
    fn zeros() -> Self;

    fn of_line(w: [u32; 40]) -> Self;

    // The cells, with zeros behind them.
    fn cells(self) -> [f64; 4];

    fn step(&mut self, c: Biquad, x: f64) -> f64;

    fn step_clamped(&mut self, c: BiquadClamp, x: f64) -> Result<f64, Refusal>;

    fn run(&mut self, c: Biquad, xs: &[f64], ys: &mut [f64]) -> Result<(), Refusal>;

    fn run_clamped(&mut self, c: BiquadClamp, xs: &[f64], ys: &mut [f64]) -> Result<(), Refusal>;
}

impl Form for DirectForm1 {
    fn zeros() -> DirectForm1 {
        DirectForm1::default()
    }

    fn of_line(w: [u32; 40]) -> DirectForm1 {
        DirectForm1 {
            x1: value(w, 17),
            x2: value(w, 19),
            y1: value(w, 21),
            y2: value(w, 23),
        }
    }

    fn cells(self) -> [f64; 4] {
        [self.x1, self.x2, self.y1, self.y2]
    }

    fn step(&mut self, c: Biquad, x: f64) -> f64 {
        self.process(c, x)
    }

    fn step_clamped(&mut self, c: BiquadClamp, x: f64) -> Result<f64, Refusal> {
        self.process_clamp(c, x)
    }

    fn run(&mut self, c: Biquad, xs: &[f64], ys: &mut [f64]) -> Result<(), Refusal> {
        self.block(c, xs, ys)
    }

    fn run_clamped(&mut self, c: BiquadClamp, xs: &[f64], ys: &mut [f64]) -> Result<(), Refusal> {
        self.block_clamp(c, xs, ys)
    }
}

impl Form for DirectForm2Transposed {
    fn zeros() -> DirectForm2Transposed {
        DirectForm2Transposed::default()
    }

    fn of_line(w: [u32; 40]) -> DirectForm2Transposed {
        DirectForm2Transposed {
            s1: value(w, 17),
            s2: value(w, 19),
        }
    }

    fn cells(self) -> [f64; 4] {
        [self.s1, self.s2, 0.0, 0.0]
    }

    fn step(&mut self, c: Biquad, x: f64) -> f64 {
        self.process(c, x)
    }

    fn step_clamped(&mut self, c: BiquadClamp, x: f64) -> Result<f64, Refusal> {
        self.process_clamp(c, x)
    }

    fn run(&mut self, c: Biquad, xs: &[f64], ys: &mut [f64]) -> Result<(), Refusal> {
        self.block(c, xs, ys)
    }

    fn run_clamped(&mut self, c: BiquadClamp, xs: &[f64], ys: &mut [f64]) -> Result<(), Refusal> {
        self.block_clamp(c, xs, ys)
    }
}

// 1 where the output or the cells after differ from the line's.
fn answer_differs(w: [u32; 40], y: f64, cells: [f64; 4]) -> u64 {
    if other(w, 27, y) != 0 {
        return 1;
    }
    for j in 0..4 {
        if other(w, 29 + 2 * j, cells[j]) != 0 {
            return 1;
        }
    }
    0
}

fn step<F: Form>(w: [u32; 40]) -> u64 {
    let mut state = F::of_line(w);
    let y = state.step(filter(w).coeff(), value(w, 25));
    answer_differs(w, y, state.cells())
}

fn clamped_step<F: Form>(w: [u32; 40]) -> u64 {
    let mut state = F::of_line(w);
    match state.step_clamped(filter(w), value(w, 25)) {
        Ok(y) => answer_differs(w, y, state.cells()),
        Err(_) => 1,
    }
}

// A number of size 1/8 to 2 from two drawn words.
fn moderate(h: u32, l: u32) -> f64 {
    let sign = (h / 0x8000_0000) as u64 * 0x8000_0000;
    let size = (h % 0x10_0000) as u64 + 0x3fc0_0000 + (h / 0x10_0000 % 4) as u64 * 0x10_0000;
    from_bits((sign + size) * 0x1_0000_0000 + l as u64)
}

// The next block of inputs, drawn from the generator's state; gives the state after.
fn fill(xs: &mut [f64], state: u64) -> u64 {
    let mut s = state;
    for x in xs {
        let h = draw(s);
        let l = draw(h.state);
        s = l.state;
        *x = moderate(h.value, l.value);
    }
    s
}

fn digest_all(d: u64, ys: &[f64]) -> u64 {
    let mut e = d;
    for &y in ys {
        e = digest_double(e, to_bits(y));
    }
    e
}

// The inputs of block number i: drawn, or those of an impulse.
fn inputs(xs: &mut [f64; 16], state: u64, impulse: bool, i: u32) -> u64 {
    if !impulse {
        return fill(xs, state);
    }
    if i == 0 {
        xs[0] = 1.0;
    }
    state
}

// The digest of a run from zero, in blocks of 16 inputs from the seed or of an impulse: the outputs, then the cells. Of a
// refused block the outputs are zeros.
fn run<F: Form>(w: [u32; 40], clamped: bool, impulse: bool) -> u64 {
    let c = filter(w);
    let mut state = F::zeros();
    let mut draws = u64::from(w[17]);
    let mut digest = 0;
    for i in 0..w[18] / 16 {
        let mut xs = [0.0; 16];
        let mut ys = [0.0; 16];
        draws = inputs(&mut xs, draws, impulse, i);
        if clamped {
            let _ran = state.run_clamped(c, &xs, &mut ys);
        } else {
            let _ran = state.run(c.coeff(), &xs, &mut ys);
        }
        digest = digest_all(digest, &ys);
    }
    digest_all(digest, &state.cells())
}

fn long_run<F: Form>(w: [u32; 40]) -> u64 {
    unlike_double(run::<F>(w, w[0] % 2 == 0, 8 < w[0]), double(w[19], w[20]))
}

// 1 where the line differs from what the proved function gives.
fn differs(w: [u32; 40]) -> u64 {
    match w[0] {
        1 => step::<DirectForm1>(w),
        2 => clamped_step::<DirectForm1>(w),
        3 => step::<DirectForm2Transposed>(w),
        4 => clamped_step::<DirectForm2Transposed>(w),
        5 | 6 | 9 | 10 => long_run::<DirectForm1>(w),
        _ => long_run::<DirectForm2Transposed>(w),
    }
}

// How many cases a line stands for: the steps of a run, else one.
fn weight(w: [u32; 40]) -> u64 {
    if w[0] < 5 {
        return 1;
    }
    double(0, w[18])
}

// All lines with this code.
fn compare(rt: &impl Print, text: &[u8], code: u32, name: &[u8]) -> io::Result<()> {
    let mut cases: u64 = 0;
    let mut differ: u64 = 0;
    for i in 0..LINES {
        let w = line(text, i * WIDTH);
        if w[0] == code {
            cases = cases.wrapping_add(weight(w));
            differ = differ.wrapping_add(differs(w));
        }
    }
    report(rt, name, cases, differ)?;
    Ok(())
}

fn limits(min: f64, max: f64) -> BiquadClamp {
    let mut c = BiquadClamp::from(Biquad::IDENTITY);
    c.min = min;
    c.max = max;
    c
}

// The count n, and one more for each of three calls with these limits that has another number than is said, or than 31
// where the slices differ in length.
fn form_refused<F: Form>(n: u64, c: BiquadClamp, said: u32) -> u64 {
    let xs = [1.0; 4];
    let mut ys = [2.0; 4];
    let step = tally(n, number(F::zeros().step_clamped(c, 1.0)), said);
    let alike = tally(step, number(F::zeros().run_clamped(c, &xs, &mut ys)), said);
    tally(
        alike,
        number(F::zeros().run_clamped(c, &xs[..3], &mut ys)),
        31,
    )
}

// The same of both forms.
fn refused(n: u64, min: f64, max: f64, said: u32) -> u64 {
    let c = limits(min, max);
    form_refused::<DirectForm2Transposed>(form_refused::<DirectForm1>(n, c, said), c, said)
}

// Limits in order, equal, two zeros, crossed, and a NaN on either side.
fn refusals() -> u64 {
    let nan = 0.0 / 0.0;
    let ordered = refused(0, -1.0, 1.0, 0);
    let equal = refused(ordered, 0.5, 0.5, 0);
    let zeros = refused(equal, 0.0, -0.0, 0);
    let crossed = refused(zeros, 1.0, 0.5, 41);
    let below = refused(crossed, nan, 1.0, 41);
    refused(below, -1.0, nan, 41)
}

fn compare_steps(rt: &impl Print, text: &[u8]) -> io::Result<()> {
    compare(rt, text, 1, b"direct form 1, step")?;
    compare(rt, text, 2, b"direct form 1 clamped, step")?;
    compare(rt, text, 3, b"direct form 2 transposed, step")?;
    compare(rt, text, 4, b"direct form 2 transposed clamped, step")?;
    Ok(())
}

fn compare_runs(rt: &impl Print, text: &[u8]) -> io::Result<()> {
    compare(rt, text, 5, b"direct form 1, runs")?;
    compare(rt, text, 6, b"direct form 1 clamped, runs")?;
    compare(rt, text, 7, b"direct form 2 transposed, runs")?;
    compare(rt, text, 8, b"direct form 2 transposed clamped, runs")?;
    Ok(())
}

fn compare_impulses(rt: &impl Print, text: &[u8]) -> io::Result<()> {
    compare(rt, text, 9, b"direct form 1, impulses")?;
    compare(rt, text, 10, b"direct form 1 clamped, impulses")?;
    compare(rt, text, 11, b"direct form 2 transposed, impulses")?;
    compare(rt, text, 12, b"direct form 2 transposed clamped, impulses")?;
    Ok(())
}

fn main(rt: HostRuntime) -> io::Result<()> {
    let mut space = [0u8; 200000];
    let n = read_full(&mut rt.stdin(), &mut space)?;
    let text = &space[..n];
    compare_steps(&rt, text)?;
    compare_runs(&rt, text)?;
    compare_impulses(&rt, text)?;
    report(&rt, b"refusals 31 and 41", 36, refusals())?;
    Ok(())
}
