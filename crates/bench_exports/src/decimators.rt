// Decimator and interpolator on words of 32 and of 64 bits, the plain engine, and the decimator's steps one by one.
ghost use Rattle.std.specs.Prelude.{◌≡◌, length};
ghost use Rattle.blocks.specs.Scan.{scan};
ghost use Rattle.std.specs.Int.{w32, w64};
ghost use Rattle.sums.specs.Runs.{fill_out};
ghost use Rattle.sums.specs.Counted.{block_out};
ghost use Rattle.sums.specs.Signed.{signed_ops};
ghost use Rattle.lent.specs.Reading.{counted};
ghost use Rattle.cic.specs.Reading.{state_of, counted_of, cic_of, numbers_of};
ghost use Rattle.fir.specs.Calls.{fresh, written_of};
ghost use Rattle.bench_exports.specs.Fresh.{block_left, fresh_cic, given_in, step_out, step_next};
ghost use Rattle.bench_exports.specs.Steps.{step_of, after_step};

use blocks::{Filter, Refusal};
use cic::state::Cic;
use cic::steps::Output;
use cic::word::Word;
use fir::Fir;
use lent::state::LentCic;

// A filter before its first input; where its numbers are refused, one that gives back its inputs.
fn started<W: Word>(order: usize, delay: usize, rate: u32) -> Cic<W>
    ensures { result ≡ fresh_cic W.ops order delay rate }
{
    Cic::new(order, delay, rate).unwrap_or(Cic::blank())
}

// A decimator's block.
#[unsafe(no_mangle)]
pub extern "C" fn bench_decimate(order: usize, delay: usize, rate: u32, xs: &[i32], ys: &mut [i32])
    ensures { ys.new ≡ block_out (signed_ops w32) (counted_of (fresh_cic (signed_ops w32) order delay rate)) xs.now ys.old }
{
    let mut filter = started::<i32>(order, delay, rate);
    let _wrote = filter.decimate_block(xs, ys);
}

#[unsafe(no_mangle)]
pub extern "C" fn bench_decimate64(
    order: usize,
    delay: usize,
    rate: u32,
    xs: &[i64],
    ys: &mut [i64],
)
    ensures { ys.new ≡ block_out (signed_ops w64) (counted_of (fresh_cic (signed_ops w64) order delay rate)) xs.now ys.old }
{
    let mut filter = started::<i64>(order, delay, rate);
    let _wrote = filter.decimate_block(xs, ys);
}

// An interpolator's block.
#[unsafe(no_mangle)]
pub extern "C" fn bench_interpolate(
    order: usize,
    delay: usize,
    rate: u32,
    xs: &[i32],
    ys: &mut [i32],
)
    ensures { ys.new ≡ fill_out (signed_ops w32) (state_of (fresh_cic (signed_ops w32) order delay rate)) xs.now ys.old }
{
    let mut filter = started::<i32>(order, delay, rate);
    let _read = filter.interpolate_block(xs, ys);
}

#[unsafe(no_mangle)]
pub extern "C" fn bench_interpolate64(
    order: usize,
    delay: usize,
    rate: u32,
    xs: &[i64],
    ys: &mut [i64],
)
    ensures { ys.new ≡ fill_out (signed_ops w64) (state_of (fresh_cic (signed_ops w64) order delay rate)) xs.now ys.old }
{
    let mut filter = started::<i64>(order, delay, rate);
    let _read = filter.interpolate_block(xs, ys);
}

// The plain engine's block.
#[unsafe(no_mangle)]
pub extern "C" fn bench_fir(xs: &[i32], ys: &mut [i32])
    ensures { ys.new ≡ written_of fresh xs.now ys.old }
{
    let mut engine = Fir::new();
    let _wrote = engine.decimate_block(xs, ys);
}

// What a step gives, or 0.
#[tactic(auto, unfolding(crate::specs::Fresh::given_in))]
fn given(out: Result<Option<Output<i32>>, Refusal>) -> i32
    ensures { result ≡ given_in out }
{
    match out {
        Ok(Some(y)) => y.value,
        Ok(None) | Err(_) => 0,
    }
}

// A decimator whose step gives 0 where no output comes.
#[derive(Clone, Copy)]
struct Steps {
    filter: Cic<i32>,
}

impl Filter for Steps {
    type Input = i32;

    type Output = i32;

    ghost gives = { step_of };

    ghost after = { after_step };

    fn process(&mut self, x: i32) -> i32 {
        given(self.filter.decimate(x))
    }
}

// All of a filter but its arrays.
fn numbers(s: Cic<i32>) -> LentCic<i32>
    ensures { result ≡ numbers_of s }
{
    LentCic {
        order: s.order,
        delay: s.delay,
        rate: s.rate,
        countdown: s.countdown,
        unsettled: s.unsettled,
        inputs: s.inputs,
        hold: s.hold,
    }
}

// The steps on lent arrays.
// Kept: a loop of its own. With the arrays beside the numbers in a Filter a step costs 45 instructions and not 38.
fn lent_all(
    mut numbers: LentCic<i32>,
    integrators: &mut [i32; 8],
    combs: &mut [i32; 64],
    xs: &[i32],
    ys: &mut [i32],
)
    requires { length xs.now ≡ length ys.old }
    ensures { ys.new
        ≡ scan step_out step_next (cic_of (counted numbers integrators.old combs.old)) xs.now }
{
    for (i, &x) in xs.iter().enumerate() {
        let out = numbers.decimate(integrators, combs, x);
        ys[i] = given(out);
    }
}

// A decimator's steps, each by itself; where the slices differ in length nothing is written.
#[unsafe(no_mangle)]
pub extern "C" fn bench_steps(order: usize, delay: usize, rate: u32, xs: &[i32], ys: &mut [i32])
    ensures { ys.new ≡ block_left 0 step_out step_next (fresh_cic (signed_ops w32) order delay rate) xs.now ys.old }
{
    let mut steps = Steps {
        filter: started(order, delay, rate),
    };
    let _ran = blocks::block(&mut steps, xs, ys);
}

// The same on lent arrays.
#[unsafe(no_mangle)]
pub extern "C" fn bench_lent_steps(
    order: usize,
    delay: usize,
    rate: u32,
    xs: &[i32],
    ys: &mut [i32],
)
    ensures { ys.new ≡ block_left 0 step_out step_next (fresh_cic (signed_ops w32) order delay rate) xs.now ys.old }
{
    if xs.len() != ys.len() {
        return;
    }
    let filter = started::<i32>(order, delay, rate);
    let mut integrators = filter.integrators;
    let mut combs = filter.combs;
    lent_all(numbers(filter), &mut integrators, &mut combs, xs, ys);
}
