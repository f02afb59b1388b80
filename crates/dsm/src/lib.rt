// The delta-sigma modulator (01, 'The modulator'): of order K, 0 to 8, with outputs that average to the input / 2^32.
// Port of the crate's dsm.rs, with outputs and retained values in i16, which holds the output 128 of K = 8.
// Callers cite specs/Modulator (a step) and specs/Calls (every call by its number, state and answer). What a run of calls
// takes in and gives out stands in crate shaping.

#![tactic(auto)]

ghost use Rattle.std.specs.Prelude.{◌≡◌, true, ◌+◌, ◌-◌, ◌/◌, ◌%◌, ◌^◌, ◌<◌, ◌≤◌, length, take, pos, ◌+ℤ◌, ◌-ℤ◌};
ghost use Rattle.std.specs.Int.Signed.{mag};
ghost use Rattle.blocks.specs.Refusals.{answer};
ghost use Rattle.dsm.specs.Modulator.{inside, inside_from};
ghost use Rattle.dsm.specs.Calls.{order_number, cells_number, state_number, zeros_of, range_of, Makes, Steps, Runs};
ghost use Rattle.dsm.specs.Cells.{Accumulates, Combines, Turns, Modulates};

use blocks::Refusal;

// Order K, accumulators, of which K are used, and retained values, of which K - 1 are used. Other cells never matter.
// Retained cell j, from 0, must lie in 1 - 2^j .. 2^j.
#[derive(Clone, Copy)]
pub struct Dsm {
    pub order: usize,
    pub accumulators: [u32; 8],
    pub retained: [i16; 8],
}

// The least and the greatest output.
#[derive(Clone, Copy, Debug, PartialEq, Eq)]
pub struct OutputRange {
    pub least: i16,
    pub greatest: i16,
}

// The first `order` accumulators run from x; other cells stay. Gives their carries as bits, the last one lowest.
fn accumulate(a: &mut [u32; 8], order: usize, x: u32) -> u32
    requires { order ≤ 8 }
    ensures { Accumulates order a.old x a.new result }
{
    let mut carries: u32 = 0;
    let mut value = x;
    for i in 0..order {
        let (sum, carry) = a[i].overflowing_add(value);
        a[i] = sum;
        value = sum;
        carries = carries * 2 + u32::from(carry);
    }
    carries
}

// The lowest bit.
fn bit(d: u32) -> i16
    ensures { result ≡ pos (d % 2) }
{
    (d % 2) as i16
}

// carry + y - retained, of a carry in the lowest bit of d.
fn joined(d: u32, y: i16, retained: i16) -> i16
    requires { (mag y ≤ 64) × (mag retained ≤ 64) }
    ensures { result ≡ pos (d % 2) +ℤ y -ℤ retained }
{
    bit(d) + y - retained
}

// The carries d of `order` accumulators meet the retained cells, from the last carry backwards. Gives the output;
// other cells stay.
fn combine(c: &mut [i16; 8], order: usize, d: u32) -> i16
    requires { (order ≤ 8) × (d < 2 ^ order) × (inside_from 0 (take (order - 1) c.old) ≡ true) }
    ensures { Combines order d c.old c.new result }
{
    let mut left = d;
    let mut y = bit(d);
    for j in 0..order.saturating_sub(1) {
        left /= 2;
        let old = c[j];
        c[j] = y;
        y = joined(left, y, old);
    }
    y
}

// 2^j, the greatest value of retained cell j.
fn top(j: usize) -> i16
    requires { j ≤ 7 }
    ensures { result ≡ pos (2 ^ j) }
{
    (1u32 << j) as i16
}

// Whether cell j lies in 1 - 2^j .. 2^j.
fn in_range(j: usize, cell: i16) -> bool
    requires { j ≤ 7 }
    ensures { result ≡ inside j cell }
{
    let high = top(j);
    1 - high <= cell && cell <= high
}

// Whether each of the K - 1 used cells lies in its range.
fn cells_in_range(c: &[i16; 8], order: usize) -> bool
    ensures { result ≡ inside_from 0 (take (order - 1) c.now) }
{
    for i in 0..order.saturating_sub(1).min(8) {
        if !in_range(i, c[i]) {
            return false;
        }
    }
    true
}

// 30 where the order is above 8.
fn order_fits(order: usize) -> Result<(), Refusal>
    ensures { result ≡ answer (order_number order) tt }
{
    if 8 < order {
        return Err(Refusal::ModulatorOrder);
    }
    Ok(())
}

impl Dsm {
    // Order 0, which gives zeros.
    pub const IDLE: Dsm = Dsm {
        order: 0,
        accumulators: [0; 8],
        retained: [0; 8],
    };

    // A modulator of zeros. 30 where the order is above 8; what stands for the state is then `IDLE`.
    pub fn new(order: usize) -> Result<Dsm, Refusal>
        ensures { Makes order result }
    {
        order_fits(order)?;
        Ok(Dsm {
            order,
            accumulators: [0; 8],
            retained: [0; 8],
        })
    }

    // 32 where a used retained cell is out of range.
    fn cells_fit(&self) -> Result<(), Refusal>
        ensures { result ≡ answer (cells_number self.now) tt }
    {
        if cells_in_range(&self.retained, self.order) {
            return Ok(());
        }
        Err(Refusal::Carry)
    }

    fn accepted(&self) -> Result<(), Refusal>
        ensures { result ≡ answer (state_number self.now) tt }
    {
        order_fits(self.order)?;
        self.cells_fit()
    }

    // One step of an accepted modulator, whose order the caller has at hand.
    fn turn(&mut self, order: usize, x: u32) -> i16
        requires { (self.old.order ≡ order) × (state_number self.old ≡ 0) }
        ensures { Turns self.old x self.new result }
    {
        let carries = accumulate(&mut self.accumulators, order, x);
        combine(&mut self.retained, order, carries)
    }

    // The steps over xs in turn, of an accepted modulator of order K: writes their outputs. The order is a constant, so
    // that the loops over the cells are unrolled.
    fn run<const K: usize>(&mut self, xs: &[u32], ys: &mut [i16])
        requires { (self.old.order ≡ K) × (state_number self.old ≡ 0) × (length xs.now ≡ length ys.old) }
        ensures { Modulates self.old xs.now self.new ys.new }
    {
        let mut state = *self;
        for (i, &x) in xs.iter().enumerate() {
            ys[i] = state.turn(K, x);
        }
        *self = state;
    }

    fn run_by_order(&mut self, xs: &[u32], ys: &mut [i16])
        requires { (state_number self.old ≡ 0) × (length xs.now ≡ length ys.old) }
        ensures { Modulates self.old xs.now self.new ys.new }
    {
        match self.order {
            0 => self.run::<0>(xs, ys),
            1 => self.run::<1>(xs, ys),
            2 => self.run::<2>(xs, ys),
            3 => self.run::<3>(xs, ys),
            4 => self.run::<4>(xs, ys),
            5 => self.run::<5>(xs, ys),
            6 => self.run::<6>(xs, ys),
            7 => self.run::<7>(xs, ys),
            _ => self.run::<8>(xs, ys),
        }
    }

    // Takes the input x and gives the next output; an accepted state stays accepted. 30 where the order is above 8,
    // 32 where a used retained cell is out of range: the state stays.
    pub fn process(&mut self, x: u32) -> Result<i16, Refusal>
        ensures { Steps self.old x self.new result }
    {
        self.accepted()?;
        Ok(self.turn(self.order, x))
    }

    // Takes the inputs in turn and writes their outputs. 30, then 31 where the slices differ in length, then 32:
    // the state stays and nothing is written.
    pub fn block(&mut self, xs: &[u32], ys: &mut [i16]) -> Result<(), Refusal>
        ensures { Runs self.old xs.now ys.old self.new result ys.new }
    {
        order_fits(self.order)?;
        if xs.len() != ys.len() {
            return Err(Refusal::Lengths);
        }
        self.cells_fit()?;
        self.run_by_order(xs, ys);
        Ok(())
    }

    pub fn order(self) -> usize
        ensures { result ≡ self.order }
    {
        self.order
    }

    // The least and the greatest output: 1 - 2^(K-1) and 2^(K-1), or 0 twice at K = 0. Refused as `process`.
    pub fn output_range(self) -> Result<OutputRange, Refusal>
        ensures { result ≡ range_of self }
    {
        self.accepted()?;
        if self.order == 0 {
            return Ok(OutputRange {
                least: 0,
                greatest: 0,
            });
        }
        let high = top(self.order - 1);
        Ok(OutputRange {
            least: 1 - high,
            greatest: high,
        })
    }
}

// Nothing calls it: its promise says what the constant `IDLE` is.
fn idle() -> Dsm
    ensures { result ≡ zeros_of 0 }
{
    Dsm::IDLE
}
