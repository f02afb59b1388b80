// The decimator's calls, and those that make a filter or put it in order. Each answers the number of its refusal, or 0; the step
// answers 1 or 2 where it gives an output. A refused call leaves all that is lent as it was.
ghost use Rattle.std.specs.Int.{w64};
ghost use Rattle.sums.specs.Signed.{signed_ops};
ghost use Rattle.cic_calls.specs.Lent.{lent, written};
ghost use Rattle.cic_calls.specs.Calls.{New, Resume, SetRate, Clear, Decimate, DecimateBlock, Settles};

use cic::runs::{Written, settled_part};
use cic::state::Cic;
use cic_calls::parts::{
    gathered, given_out, numbers_in, numbers_out, numbers_with, resumed, spread,
};

// A filter of zeros, settled, of order n, delay m and rate r.
#[unsafe(no_mangle)]
pub extern "C" fn mittenload_cic64_new(
    order: &mut usize,
    delay: &mut usize,
    rate: &mut u32,
    countdown: &mut u32,
    unsettled: &mut usize,
    inputs: &mut u64,
    hold: &mut i64,
    integrators: &mut [i64; 8],
    combs: &mut [i64; 64],
    n: usize,
    m: usize,
    r: u32,
) -> u32
    ensures { New (signed_ops w64) n m r (lent order.old delay.old rate.old countdown.old unsettled.old inputs.old hold.old integrators.old combs.old) (lent order.new delay.new rate.new countdown.new unsettled.new inputs.new hold.new integrators.new combs.new) result }
{
    match Cic::new(n, m, r) {
        Ok(made) => {
            spread(
                made,
                order,
                delay,
                rate,
                countdown,
                unsettled,
                inputs,
                hold,
                integrators,
                combs,
            );
            0
        }
        Err(refusal) => refusal.number(),
    }
}

// The filter as its fields say, its next N.M outputs unsettled.
#[unsafe(no_mangle)]
pub extern "C" fn mittenload_cic64_resume(
    order: &mut usize,
    delay: &mut usize,
    rate: &mut u32,
    countdown: &mut u32,
    unsettled: &mut usize,
    inputs: &mut u64,
    hold: &mut i64,
    integrators: &mut [i64; 8],
    combs: &mut [i64; 64],
) -> u32
    ensures { Resume (signed_ops w64) (lent order.old delay.old rate.old countdown.old unsettled.old inputs.old hold.old integrators.old combs.old) (lent order.new delay.new rate.new countdown.new unsettled.new inputs.new hold.new integrators.new combs.new) result }
{
    let s = gathered(
        order,
        delay,
        rate,
        countdown,
        unsettled,
        inputs,
        hold,
        integrators,
        combs,
    );
    match resumed(s) {
        Ok(made) => {
            spread(
                made,
                order,
                delay,
                rate,
                countdown,
                unsettled,
                inputs,
                hold,
                integrators,
                combs,
            );
            0
        }
        Err(refusal) => refusal.number(),
    }
}

// Another rate; the next N.M outputs are unsettled.
#[unsafe(no_mangle)]
pub extern "C" fn mittenload_cic64_set_rate(
    order: &mut usize,
    delay: &mut usize,
    rate: &mut u32,
    countdown: &mut u32,
    unsettled: &mut usize,
    inputs: &mut u64,
    hold: &mut i64,
    integrators: &mut [i64; 8],
    combs: &mut [i64; 64],
    wanted: u32,
) -> u32
    ensures { SetRate (signed_ops w64) (lent order.old delay.old rate.old countdown.old unsettled.old inputs.old hold.old integrators.old combs.old) wanted (lent order.new delay.new rate.new countdown.new unsettled.new inputs.new hold.new integrators.new combs.new) result }
{
    let mut s = gathered(
        order,
        delay,
        rate,
        countdown,
        unsettled,
        inputs,
        hold,
        integrators,
        combs,
    );
    let set = s.set_rate(wanted);
    spread(
        s,
        order,
        delay,
        rate,
        countdown,
        unsettled,
        inputs,
        hold,
        integrators,
        combs,
    );
    blocks::number(set)
}

// Zeros, settled, at the same order, delay and rate.
#[unsafe(no_mangle)]
pub extern "C" fn mittenload_cic64_clear(
    order: &mut usize,
    delay: &mut usize,
    rate: &mut u32,
    countdown: &mut u32,
    unsettled: &mut usize,
    inputs: &mut u64,
    hold: &mut i64,
    integrators: &mut [i64; 8],
    combs: &mut [i64; 64],
) -> u32
    ensures { Clear (signed_ops w64) (lent order.old delay.old rate.old countdown.old unsettled.old inputs.old hold.old integrators.old combs.old) (lent order.new delay.new rate.new countdown.new unsettled.new inputs.new hold.new integrators.new combs.new) result }
{
    let mut s = gathered(
        order,
        delay,
        rate,
        countdown,
        unsettled,
        inputs,
        hold,
        integrators,
        combs,
    );
    let cleared = s.clear();
    spread(
        s,
        order,
        delay,
        rate,
        countdown,
        unsettled,
        inputs,
        hold,
        integrators,
        combs,
    );
    blocks::number(cleared)
}

// One input in; an output, where there is one, stands in the filter's own fields: its value is the hold, its number the inputs. Answers 1 where it
// is told 0, and 2 where it is told one more than the unsettled count. What a step doesn't change isn't written.
#[unsafe(no_mangle)]
pub extern "C" fn mittenload_cic64_decimate(
    order: usize,
    delay: usize,
    rate: u32,
    countdown: &mut u32,
    unsettled: &mut usize,
    inputs: &mut u64,
    hold: &mut i64,
    integrators: &mut [i64; 8],
    combs: &mut [i64; 64],
    x: i64,
) -> u32
    ensures { Decimate (signed_ops w64) (lent order delay rate countdown.old unsettled.old inputs.old hold.old integrators.old combs.old) x (lent order delay rate countdown.new unsettled.new inputs.new hold.new integrators.new combs.new) result }
{
    let mut s = numbers_with(order, delay, rate, countdown, unsettled, inputs, hold);
    match s.decimate(integrators, combs, x) {
        Ok(Some(y)) => {
            given_out(s, countdown, unsettled, inputs, hold);
            if y.told == 0 {
                return 1;
            }
            2
        }
        Ok(None) => {
            *countdown = s.countdown;
            *inputs = s.inputs;
            0
        }
        Err(refusal) => refusal.number(),
    }
}

// A block of inputs in, its outputs to the front of out; how many, and what the first tells, to count, told and number. The integrators run in a
// copy, which no slice can overlap, so that the compiler keeps them in registers.
#[unsafe(no_mangle)]
pub extern "C" fn mittenload_cic64_decimate_block(
    order: &mut usize,
    delay: &mut usize,
    rate: &mut u32,
    countdown: &mut u32,
    unsettled: &mut usize,
    inputs: &mut u64,
    hold: &mut i64,
    integrators: &mut [i64; 8],
    combs: &mut [i64; 64],
    input: &[i64],
    out: &mut [i64],
    count: &mut usize,
    told: &mut usize,
    number: &mut u64,
) -> u32
    ensures { DecimateBlock (signed_ops w64) (lent order.old delay.old rate.old countdown.old unsettled.old inputs.old hold.old integrators.old combs.old) input.now out.old (written count.old told.old number.old) (lent order.new delay.new rate.new countdown.new unsettled.new inputs.new hold.new integrators.new combs.new) out.new (written count.new told.new number.new) result }
{
    let mut s = numbers_in(order, delay, rate, countdown, unsettled, inputs, hold);
    let mut sums = *integrators;
    let wrote = s.decimate_block(&mut sums, combs, input, out);
    *integrators = sums;
    numbers_out(s, order, delay, rate, countdown, unsettled, inputs, hold);
    let told_of = wrote.unwrap_or(Written {
        count: *count,
        told: *told,
        number: *number,
    });
    *count = told_of.count;
    *told = told_of.told;
    *number = told_of.number;
    blocks::number(wrote)
}

// Where the settled part of what a block wrote into out begins, to first, and how many outputs it has, to count.
#[unsafe(no_mangle)]
pub extern "C" fn mittenload_cic64_settled(
    out: &[i64],
    written: usize,
    told: usize,
    first: &mut usize,
    count: &mut usize,
) -> u32
    ensures { Settles out.now written told first.old count.old first.new count.new result }
{
    if out.len() < written {
        return 20;
    }
    let part = settled_part(out, written, told);
    let n = part.len();
    *first = written - n;
    *count = n;
    0
}
