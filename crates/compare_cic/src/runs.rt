// Runs by steps and by blocks of drawn lengths, with the whole state after each.
ghost use Rattle.std.specs.Prelude.{◌≤◌};

use crate::word::{Word, digest_word, spread_word};
use blocks::Refusal;
use cic::runs::Written;
use cic::state::Cic;
use cic::steps::Output;
use lent::state::LentCic;
use rust_answers::lines::{double, size, unlike_double};
use rust_answers::runs::{digest, draw};

// The most inputs of a decimator's block, or outputs of an interpolator's.
const BLOCK: usize = 250;
// No later rate.
const NONE: u32 = 0xffff_ffff;

// A state put together by hand.
pub(crate) fn state(
    order: usize,
    delay: usize,
    rate: u32,
    countdown: u32,
    unsettled: usize,
) -> Cic<Word> {
    Cic {
        order,
        delay,
        rate,
        countdown,
        unsettled,
        inputs: 0,
        hold: 0,
        integrators: [0; 8],
        combs: [0; 64],
    }
}

// The digest grown by 1 and the output, by 0 where there is none, or by the number of a refusal.
fn digest_output(d: u64, out: Result<Option<Output<Word>>, Refusal>) -> u64 {
    match out {
        Ok(Some(y)) => digest_word(digest(d, 1), y.value),
        Ok(None) => digest(d, 0),
        Err(r) => digest(d, r.number()),
    }
}

fn digest_value(d: u64, out: Result<Word, Refusal>) -> u64 {
    match out {
        Ok(y) => digest_word(digest(d, 1), y),
        Err(r) => digest(d, r.number()),
    }
}

// Draws a slice full of words; the generator's state after them.
fn fill(xs: &mut [Word], first: u64) -> u64 {
    let mut draws = first;
    for i in 0..xs.len() {
        let r = spread_word(draws);
        xs[i] = r.value;
        draws = r.state;
    }
    draws
}

// The digest grown by the first n values.
fn digest_values(d: u64, ys: &[Word], n: usize) -> u64 {
    let mut e = d;
    for (at, &y) in ys.iter().enumerate() {
        if at < n {
            e = digest_word(e, y);
        }
    }
    e
}

// The digest grown by the first m cells of each of the first n lines.
fn digest_lines(d: u64, cells: &[Word], n: usize, m: usize) -> u64 {
    let mut e = d;
    for (at, &cell) in cells.iter().enumerate() {
        if at / 8 < n && at % 8 < m {
            e = digest_word(e, cell);
        }
    }
    e
}

// Countdown, hold, the used integrators, the used cells of each line.
pub(crate) fn digest_state(d: u64, s: Cic<Word>) -> u64 {
    let held = digest_word(digest(d, s.countdown), s.hold);
    let summed = digest_values(held, &s.integrators, s.order);
    digest_lines(summed, &s.combs, s.order, s.delay)
}

// The state of a line, resumed from its drawn cells, and the generator's state after them.
#[derive(Clone, Copy)]
pub(crate) struct Resumed {
    pub state: Cic<Word>,
    pub draws: u64,
}

pub(crate) fn started(w: [u32; 40]) -> Resumed {
    let mut a: [Word; 8] = [0; 8];
    let mut b: [Word; 64] = [0; 64];
    let drawn = fill(&mut a, double(0, w[5]));
    let hold = spread_word(fill(&mut b, drawn));
    let resumed = Cic::resume(
        size(w[1]),
        size(w[2]),
        w[3],
        a,
        b,
        hold.value,
        w[4],
        double(0, w[5]),
    );
    let state = match resumed {
        Ok(s) => s,
        Err(_) => state(0, 1, 0, 0, 0),
    };
    Resumed {
        state,
        draws: hold.state,
    }
}

// A step whose arrays are lent.
fn lent_step(s: &mut Cic<Word>, x: Word) -> Result<Option<Output<Word>>, Refusal> {
    let mut numbers = LentCic {
        order: s.order,
        delay: s.delay,
        rate: s.rate,
        countdown: s.countdown,
        unsettled: s.unsettled,
        inputs: s.inputs,
        hold: s.hold,
    };
    let out = numbers.decimate(&mut s.integrators, &mut s.combs, x);
    s.order = numbers.order;
    s.delay = numbers.delay;
    s.rate = numbers.rate;
    s.countdown = numbers.countdown;
    s.unsettled = numbers.unsettled;
    s.inputs = numbers.inputs;
    s.hold = numbers.hold;
    out
}

// On a state and on lent arrays in turn.
fn step(s: &mut Cic<Word>, x: Word, draws: u64) -> Result<Option<Output<Word>>, Refusal> {
    if draws / 65536 % 2 == 0 {
        return lent_step(s, x);
    }
    s.decimate(x)
}

// 1 where an output's number isn't this one.
fn misnumbered(out: Result<Option<Output<Word>>, Refusal>, number: u64) -> u64 {
    match out {
        Ok(Some(y)) => unlike_double(y.number, number),
        Ok(None) => 0,
        Err(_) => 0,
    }
}

// 1 where a block's first number isn't that of the input on which the countdown ends, or 0 without an output.
fn block_misnumbered(wrote: Result<Written, Refusal>, inputs: u64, countdown: u32) -> u64 {
    let Ok(w) = wrote else {
        return 0;
    };
    if w.count == 0 {
        return unlike_double(w.number, 0);
    }
    unlike_double(w.number, inputs.wrapping_add(u64::from(countdown) + 1))
}

// The length of the next block: one time in four 0, 1 or 2, else up to 250.
fn block_length(u: u32) -> usize
    ensures { result ≤ 250 }
{
    if u % 4 == 0 {
        return size(u / 4 % 3);
    }
    size(u / 4 % 251)
}

// What a block answers: its count, or no count that a block can have.
fn counted(answer: Result<usize, Refusal>) -> usize {
    match answer {
        Ok(n) => n,
        Err(_) => 251,
    }
}

fn wrote_count(wrote: Result<Written, Refusal>) -> usize {
    match wrote {
        Ok(w) => w.count,
        Err(_) => 251,
    }
}

fn digest_count(d: u64, n: usize) -> u64 {
    digest(d, (n % 0x1_0000_0000) as u32)
}

// A filter, the generator that feeds it, and the digest of what came out. The Rust doesn't number: the inputs are counted
// here, and so are the outputs whose number isn't their input's place.
#[derive(Clone, Copy)]
struct Running {
    state: Cic<Word>,
    draws: u64,
    digest: u64,
    inputs: u64,
    misnumbered: u64,
}

impl Running {
    fn decimate(&mut self) {
        let x = spread_word(self.draws);
        let out = step(&mut self.state, x.value, x.state);
        self.draws = x.state;
        self.inputs = self.inputs.wrapping_add(1);
        self.misnumbered = self.misnumbered.wrapping_add(misnumbered(out, self.inputs));
        self.digest = digest_state(digest_output(self.digest, out), self.state);
    }

    // The sample is given exactly where the filter says that one is due.
    fn interpolate(&mut self) {
        let x = spread_word(self.draws);
        let sample = if self.state.tick() {
            Some(x.value)
        } else {
            None
        };
        let out = self.state.interpolate(sample);
        self.draws = x.state;
        self.digest = digest_state(digest_value(self.digest, out), self.state);
    }

    fn decimate_block(&mut self) {
        let first = draw(self.draws);
        let n = block_length(first.value);
        let mut xs: [Word; BLOCK] = [0; BLOCK];
        let mut ys: [Word; BLOCK] = [0; BLOCK];
        self.draws = fill(&mut xs, first.state);
        let countdown = self.state.countdown;
        let wrote = self.state.decimate_block(&xs[..n], &mut ys[..n]);
        let count = wrote_count(wrote);
        self.misnumbered = self
            .misnumbered
            .wrapping_add(block_misnumbered(wrote, self.inputs, countdown));
        self.inputs = self.inputs.wrapping_add(n as u64);
        let given = digest_values(digest_count(self.digest, count), &ys, count);
        self.digest = digest_state(given, self.state);
    }

    fn interpolate_block(&mut self) {
        let first = draw(self.draws);
        let n = block_length(first.value);
        let mut xs: [Word; BLOCK] = [0; BLOCK];
        let mut ys: [Word; BLOCK] = [0; BLOCK];
        self.draws = fill(&mut xs, first.state);
        let read = self.state.interpolate_block(&xs[..n], &mut ys[..n]);
        let given = digest_values(digest_count(self.digest, counted(read)), &ys, n);
        self.digest = digest_state(given, self.state);
    }

    fn turn(&mut self, code: u32) {
        match code {
            1 => self.decimate(),
            2 => self.interpolate(),
            3 => self.decimate_block(),
            _ => self.interpolate_block(),
        }
    }

    // So many turns; before the middle one another rate is set, if there is one.
    fn run(&mut self, code: u32, turns: u32, later: u32) {
        for i in 0..turns {
            if i == turns / 2 && later != NONE {
                let _answer = self.state.set_rate(later);
            }
            self.turn(code);
        }
    }
}

// A run, by steps or by blocks, whose digests have the whole state after each; and the numbers of its outputs.
pub(crate) fn whole_run(w: [u32; 40]) -> u64 {
    let first: Resumed = started(w);
    let mut r = Running {
        state: first.state,
        draws: first.draws,
        digest: 0,
        inputs: double(0, w[5]),
        misnumbered: 0,
    };
    r.run(w[0], w[6], w[7]);
    if r.misnumbered != 0 {
        return 1;
    }
    if r.state.inputs() != r.inputs {
        return 1;
    }
    unlike_double(r.digest, double(w[8], w[9]))
}
