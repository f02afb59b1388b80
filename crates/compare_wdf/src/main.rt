// Runs the proved adapters and filters over the Rust's stored answers (oracle/README.md, wdf) and prints what
// differs.

#![tactic(auto)]

ghost use Rattle.std.specs.Prelude.{◌≤◌};

use adapters::tpa::{Ports, Tpa};
use blocks::Refusal;
use rust_answers::input::read_full;
use rust_answers::lines::{double, line, report, size, unlike, unlike_double, unlike_words};
use rust_answers::runs::{digest, digest_first, spread};
use std::io;
use wdf::filter::Wdf;

const LINES: u32 = 700;

const WIDTH: u32 = 29;

const CORNERS: [u32; 10] = [
    0,
    1,
    2,
    0x7fff_ffff,
    0x8000_0000,
    0x8000_0001,
    0xffff_ffff,
    0xffff_fffe,
    0x4000_0000,
    0xc000_0000,
];

// The outputs of a nibble's adapter.
fn adapted(nibble: u32, x0: u32, x1: u32, a: u32) -> Ports {
    let code = Tpa::from((nibble % 256) as u8);
    code.adapt(x0.cast_signed(), x1.cast_signed(), a.cast_signed())
}

// The digest grown by both outputs.
fn digest_ports(d: u64, p: Ports) -> u64 {
    digest(digest(d, p.0.cast_unsigned()), p.1.cast_unsigned())
}

fn adapter(w: [u32; 40]) -> u64 {
    let p = adapted(w[1], w[2], w[3], w[4]);
    if p.0.cast_unsigned() != w[5] {
        return 1;
    }
    unlike(p.1.cast_unsigned(), w[6])
}

// Eight words of a line, from number at on.
fn eight(w: [u32; 40], at: usize) -> [i32; 8]
    requires { at ≤ 32 }
{
    let mut numbers = [0; 8];
    for j in 0..8 {
        numbers[j] = w[at + j].cast_signed();
    }
    numbers
}

fn cells(f: Wdf) -> [u32; 8] {
    f.z.map(i32::cast_unsigned)
}

// What a step gives out, as a word: its output, or the number of its refusal.
fn given(out: Result<i32, Refusal>) -> u32 {
    match out {
        Ok(y) => y.cast_unsigned(),
        Err(refusal) => refusal.number(),
    }
}

fn step(w: [u32; 40]) -> u64 {
    let mut filter = Wdf {
        sections: size(w[1]),
        architecture: w[2],
        a: eight(w, 3),
        z: eight(w, 11),
    };
    if given(filter.process(w[19].cast_signed())) != w[20] {
        return 1;
    }
    unlike_words(&cells(filter), &w[21..29])
}

// A filter that runs, the generator that feeds it, and the digest so far.
#[derive(Drop)]
struct Running {
    filter: Wdf,
    draws: u64,
    digest: u64,
}

// What a turn of a run does; an adapter's has its nibble.
#[derive(Clone, Copy)]
enum Turn {
    Corner(u32),
    Adapter(u32),
    Step,
    Block,
}

impl Running {
    // No filter, from a seed.
    fn of_seed(seed: u32) -> Running {
        Running {
            filter: Wdf::EMPTY,
            draws: u64::from(seed),
            digest: 0,
        }
    }

    // A filter with drawn coefficients and cells, made form 1's way, since B1 and C1 are among its adapters.
    fn of_filter(sections: usize, architecture: u32, seed: u32) -> Running {
        let mut running = Running::of_seed(seed);
        let mut a = [0; 8];
        let mut z = [0; 8];
        running.fill(&mut a);
        running.fill(&mut z);
        running.filter = Wdf::from_form1(sections, architecture, a).unwrap_or(Wdf::EMPTY);
        running.filter.z = z;
        running
    }

    // The next input's word.
    fn draw(&mut self) -> u32 {
        let drawn = spread(self.draws);
        self.draws = drawn.state;
        drawn.value
    }

    // Draws a slice full of inputs.
    fn fill(&mut self, xs: &mut [i32]) {
        for i in 0..xs.len() {
            xs[i] = self.draw().cast_signed();
        }
    }

    // Triple number i of the corners.
    fn corner(&mut self, nibble: u32, i: u32) {
        let x0 = CORNERS[(i / 100 % 10) as usize];
        let x1 = CORNERS[(i / 10 % 10) as usize];
        let a = CORNERS[(i % 10) as usize];
        self.digest = digest_ports(self.digest, adapted(nibble, x0, x1, a));
    }

    fn adapter(&mut self, nibble: u32) {
        let x0 = self.draw();
        let x1 = self.draw();
        let a = self.draw();
        self.digest = digest_ports(self.digest, adapted(nibble, x0, x1, a));
    }

    fn step(&mut self) {
        let x = self.draw().cast_signed();
        self.digest = digest(self.digest, given(self.filter.process(x)));
    }

    // A block of 500 inputs.
    fn block(&mut self) {
        let mut xs = [0; 500];
        let mut ys = [0; 500];
        self.fill(&mut xs);
        let _ran = self.filter.block(&xs, &mut ys);
        for y in ys {
            self.digest = digest(self.digest, y.cast_unsigned());
        }
    }

    fn turns(&mut self, turn: Turn, count: u32) {
        for i in 0..count {
            match turn {
                Turn::Corner(nibble) => self.corner(nibble, i),
                Turn::Adapter(nibble) => self.adapter(nibble),
                Turn::Step => self.step(),
                Turn::Block => self.block(),
            }
        }
    }
}

fn adapter_run(turn: Turn, seed: u32, count: u32, answer: u64) -> u64 {
    let mut running = Running::of_seed(seed);
    running.turns(turn, count);
    unlike_double(running.digest, answer)
}

// A run of a filter: its outputs, then its cells.
fn filter_run(w: [u32; 40], turn: Turn, count: u32) -> u64 {
    let sections = size(w[1]);
    let mut running = Running::of_filter(sections, w[2], w[3]);
    running.turns(turn, count);
    let d = digest_first(running.digest, &cells(running.filter), sections);
    unlike_double(d, double(w[5], w[6]))
}

// 1 where the line differs from what the proved function gives; a filter's run by steps (5) or by blocks (6).
fn differs(w: [u32; 40], kind: u32) -> u64 {
    match kind {
        1 => adapter(w),
        2 => step(w),
        3 => adapter_run(Turn::Corner(w[1]), 0, 1000, double(w[2], w[3])),
        4 => adapter_run(Turn::Adapter(w[1]), w[2], w[3], double(w[4], w[5])),
        5 => filter_run(w, Turn::Step, w[4]),
        _ => filter_run(w, Turn::Block, w[4] / 500),
    }
}

// How many cases a line stands for: the triples of corners, the steps of a run, else one.
fn weight(w: [u32; 40]) -> u64 {
    match w[0] {
        1 | 2 => 1,
        3 => 1000,
        4 => double(0, w[3]),
        _ => double(0, w[4]),
    }
}

// All lines with this code, by calls of this kind.
fn compare(rt: &impl Print, text: &[u8], code: u32, kind: u32, name: &[u8]) -> io::Result<()> {
    let mut cases: u64 = 0;
    let mut differ: u64 = 0;
    for i in 0..LINES {
        let w = line(text, i * WIDTH);
        if w[0] == code {
            cases = cases.wrapping_add(weight(w));
            differ = differ.wrapping_add(differs(w, kind));
        }
    }
    report(rt, name, cases, differ)?;
    Ok(())
}

fn main(rt: HostRuntime) -> io::Result<()> {
    let mut space = [0u8; 200000];
    let n = read_full(&mut rt.stdin(), &mut space)?;
    let text = &space[..n];
    compare(&rt, text, 1, 1, b"Tpa::adapt")?;
    compare(&rt, text, 2, 2, b"Wdf step")?;
    compare(&rt, text, 3, 3, b"Tpa::adapt at the corners")?;
    compare(&rt, text, 4, 4, b"Tpa::adapt, runs")?;
    compare(&rt, text, 5, 5, b"Wdf, runs by steps")?;
    compare(&rt, text, 5, 6, b"Wdf, runs by blocks")?;
    Ok(())
}
