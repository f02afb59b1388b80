// Runs the proved modulator over the Rust's stored answers (oracle/README.md, dsm) and prints what differs. The
// crate's output is i8, so that it gives -128 for the 128 of K = 8 (01, 'The modulator'): these are counted, not
// differing.

#![tactic(auto)]

use blocks::number;
use dsm::Dsm;
use rust_answers::input::read_full;
use rust_answers::lines::{double, line, report, size, tally, unlike, unlike_words};
use rust_answers::runs::{digest, digest_first, draw, spread};
use std::io;

const LINES: u32 = 548;

const WIDTH: u32 = 37;

// What stands for an output where there is a refusal: no output.
const NONE: i16 = -32768;

fn word_of(y: i16) -> u32 {
    i32::from(y).cast_unsigned()
}

// What the crate's i8 makes of y.
fn in_i8(y: i16) -> u32 {
    if y == 128 { 0xffff_ff80 } else { word_of(y) }
}

// The number that a word stands for, which is small.
fn small(w: u32) -> i16 {
    i16::try_from(w.cast_signed()).unwrap_or(0)
}

// A modulator of zeros; of an order above 8 that of 0.
fn zeros(order: usize) -> Dsm {
    Dsm::new(order).unwrap_or(Dsm::IDLE)
}

// The accumulators, then the retained cells.
fn cells(s: Dsm) -> [u32; 16] {
    let a = s.accumulators;
    let c = s.retained;
    let mut w = [0u32; 16];
    for j in 0..8 {
        w[j] = a[j];
        w[j + 8] = word_of(c[j]);
    }
    w
}

// The state that a line gives: its order, the accumulators, then the retained cells.
fn state_of(w: [u32; 40]) -> Dsm {
    let mut accumulators = [0u32; 8];
    let mut retained = [0i16; 8];
    for j in 0..8 {
        accumulators[j] = w[j + 2];
        retained[j] = small(w[j + 10]);
    }
    Dsm {
        order: size(w[1]),
        accumulators,
        retained,
    }
}

// A step from any accepted state.
fn step(w: [u32; 40]) -> u64 {
    let mut modulator = state_of(w);
    let y = modulator.process(w[18]).unwrap_or(NONE);
    if in_i8(y) != w[19] || word_of(y) != w[36] {
        return 1;
    }
    unlike_words(&cells(modulator), &w[20..36])
}

// Ten inputs from zero, by a block: the outputs, and whether both ends of the output range are among them.
fn from_zero(w: [u32; 40]) -> u64 {
    let mut modulator = zeros(size(w[1]));
    let mut ys = [NONE; 10];
    let ran = modulator.block(&w[2..12], &mut ys);
    let Ok(range) = modulator.output_range() else {
        return 1;
    };
    if ran.is_err() || !ys.contains(&range.least) || !ys.contains(&range.greatest) {
        return 1;
    }
    if unlike_words(&ys.map(in_i8), &w[12..22]) == 1 {
        return 1;
    }
    unlike_words(&ys.map(word_of), &w[22..32])
}

// A modulator that runs: what the differences saw last, the generator, digests of the outputs as they are and as the
// crate's i8 has them, and how many differ.
#[derive(Drop)]
struct Running {
    modulator: Dsm,
    last: [u32; 8],
    draws: u64,
    exact: u64,
    narrow: u64,
    changed: u64,
}

impl Running {
    // A step on x.
    fn step(&mut self, x: u32) {
        let y = self.modulator.process(x).unwrap_or(NONE);
        self.exact = digest(self.exact, word_of(y));
        self.narrow = digest(self.narrow, in_i8(y));
        self.changed = self.changed.wrapping_add(unlike(in_i8(y), word_of(y)));
    }

    // The K-th difference of what `last` has seen, x being next.
    fn difference(&mut self, x: u32) -> u32 {
        let mut v = x;
        for j in 0..self.modulator.order.min(8) {
            let before = self.last[j];
            self.last[j] = v;
            v = v.wrapping_sub(before);
        }
        v
    }

    // Step number i: on a spread input, or on one under which the last accumulator swings between near 2^32 and near 0.
    fn turn(&mut self, code: u32, i: u32) {
        if code == 3 {
            let drawn = spread(self.draws);
            self.draws = drawn.state;
            self.step(drawn.value);
            return;
        }
        let drawn = draw(self.draws);
        self.draws = drawn.state;
        let margin = drawn.value % 1048576;
        let swing = if i % 2 == 0 {
            margin.wrapping_neg()
        } else {
            margin
        };
        let x = self.difference(swing);
        self.step(x);
    }
}

// A run from zero.
fn run(code: u32, order: usize, seed: u32, steps: u32) -> Running {
    let mut running = Running {
        modulator: zeros(order),
        last: [0; 8],
        draws: u64::from(seed),
        exact: 0,
        narrow: 0,
        changed: 0,
    };
    for i in 0..steps {
        running.turn(code, i);
    }
    running
}

// The digest d grown by the K accumulators and the K - 1 retained cells.
fn digest_cells(d: u64, s: Dsm, order: usize) -> u64 {
    if order == 0 {
        return d;
    }
    let c = cells(s);
    digest_first(digest_first(d, &c, order), &c[8..], order - 1)
}

fn long_run(w: [u32; 40]) -> u64 {
    let order = size(w[1]);
    if 8 < order {
        return 1;
    }
    let r = run(w[0], order, w[2], w[3]);
    let s = r.modulator;
    if digest_cells(r.narrow, s, order) != double(w[4], w[5]) {
        return 1;
    }
    if digest_cells(r.exact, s, order) != double(w[6], w[7]) {
        return 1;
    }
    if r.changed == double(0, w[8]) { 0 } else { 1 }
}

// 1 where the line differs from what the proved function gives.
fn differs(w: [u32; 40]) -> u64 {
    match w[0] {
        1 => step(w),
        2 => from_zero(w),
        _ => long_run(w),
    }
}

// How many outputs a line stands for.
fn weight(w: [u32; 40]) -> u64 {
    match w[0] {
        1 => 1,
        2 => 10,
        _ => double(0, w[3]),
    }
}

// How many of a line's stored outputs the crate's i8 changes.
fn narrowed(w: [u32; 40]) -> u64 {
    match w[0] {
        1 => unlike(w[19], w[36]),
        2 => narrowed_of_ten(w),
        _ => double(0, w[8]),
    }
}

fn narrowed_of_ten(w: [u32; 40]) -> u64 {
    let mut n: u64 = 0;
    for j in 0..10 {
        n = n.wrapping_add(unlike(w[j + 12], w[j + 22]));
    }
    n
}

fn tell(rt: &impl Print, narrow: u64) -> io::Result<()> {
    println!(rt; "  of which 128, that the crate's i8 makes -128: {narrow}")
}

// All lines with this code.
fn compare(rt: &impl Print, text: &[u8], code: u32, name: &[u8]) -> io::Result<()> {
    let mut cases: u64 = 0;
    let mut differ: u64 = 0;
    let mut narrow: u64 = 0;
    for i in 0..LINES {
        let w = line(text, i * WIDTH);
        if w[0] == code {
            cases = cases.wrapping_add(weight(w));
            differ = differ.wrapping_add(differs(w));
            narrow = narrow.wrapping_add(narrowed(w));
        }
    }
    report(rt, name, cases, differ)?;
    tell(rt, narrow)
}

// A state of zeros but for one retained cell.
fn with_cell(order: usize, j: usize, cell: i16) -> Dsm {
    let mut retained = [0i16; 8];
    if j < 8 {
        retained[j] = cell;
    }
    Dsm {
        order,
        accumulators: [0; 8],
        retained,
    }
}

// The number of a block of three inputs on such a state.
fn block_number(order: usize, cell: i16, ys: &mut [i16]) -> u32 {
    number(with_cell(order, 0, cell).block(&[0; 3], ys))
}

// Order, place and value of the cell, and the number of a step on that state, by document 01.
const STEPS: [(usize, usize, i16, u32); 14] = [
    (8, 0, 0, 0),
    (9, 0, 0, 30),
    (9, 0, 2, 30),
    (2, 0, -1, 32),
    (2, 0, 0, 0),
    (2, 0, 1, 0),
    (2, 0, 2, 32),
    (8, 6, -64, 32),
    (8, 6, -63, 0),
    (8, 6, 64, 0),
    (8, 6, 65, 32),
    (8, 7, 500, 0),
    (1, 0, 500, 0),
    (0, 0, 500, 0),
];

// How many of them differ.
fn step_refusals() -> u64 {
    let mut n: u64 = 0;
    for &(order, j, cell, said) in &STEPS {
        n = tally(n, number(with_cell(order, j, cell).process(0)), said);
    }
    n
}

fn block_refusals() -> u64 {
    let mut three = [0i16; 3];
    let mut four = [0i16; 4];
    let order = unlike(block_number(9, 2, &mut four), 30);
    let lengths = unlike(block_number(2, 2, &mut four), 31);
    let cell = unlike(block_number(2, 2, &mut three), 32);
    let none = unlike(block_number(2, 1, &mut three), 0);
    order + lengths + cell + none
}

fn maker_refusals() -> u64 {
    unlike(number(Dsm::new(8)), 0) + unlike(number(Dsm::new(9)), 30)
}

fn main(rt: HostRuntime) -> io::Result<()> {
    let mut space = [0u8; 200000];
    let n = read_full(&mut rt.stdin(), &mut space)?;
    let text = &space[..n];
    compare(&rt, text, 1, b"Dsm step")?;
    compare(
        &rt,
        text,
        2,
        b"Dsm block from zero, both ends of the output range reached",
    )?;
    compare(&rt, text, 3, b"Dsm, runs")?;
    compare(&rt, text, 4, b"Dsm, swing runs")?;
    report(&rt, b"Dsm refusals of steps", 14, step_refusals())?;
    report(&rt, b"Dsm refusals of blocks", 4, block_refusals())?;
    report(&rt, b"Dsm refusals of the maker", 2, maker_refusals())?;
    Ok(())
}
