// The interpolator's calls. Each answers the number of its refusal, or 0. A refused call leaves all that is lent as it was.
ghost use Rattle.std.specs.Prelude.{Some, None};
ghost use Rattle.std.specs.Int.{w32};
ghost use Rattle.sums.specs.Signed.{signed_ops};
ghost use Rattle.cic_calls.specs.Lent.{lent};
ghost use Rattle.cic_calls.specs.Calls.{SettleInterpolate, Interpolate, InterpolateBlock, GetInterpolate};

use blocks::number;
use cic_calls::parts::{gathered, numbers_in, numbers_out, spread};

// As if x had been fed for ever.
#[unsafe(no_mangle)]
pub extern "C" fn mittenload_cic_settle_interpolate(
    order: &mut usize,
    delay: &mut usize,
    rate: &mut u32,
    countdown: &mut u32,
    unsettled: &mut usize,
    inputs: &mut u64,
    hold: &mut i32,
    integrators: &mut [i32; 8],
    combs: &mut [i32; 64],
    x: i32,
) -> u32
    ensures { SettleInterpolate (signed_ops w32) (lent order.old delay.old rate.old countdown.old unsettled.old inputs.old hold.old integrators.old combs.old) x (lent order.new delay.new rate.new countdown.new unsettled.new inputs.new hold.new integrators.new combs.new) result }
{
    let mut s = gathered(
        order,
        delay,
        rate,
        countdown,
        unsettled,
        inputs,
        hold,
        integrators,
        combs,
    );
    let settled = s.settle_interpolate(x);
    spread(
        s,
        order,
        delay,
        rate,
        countdown,
        unsettled,
        inputs,
        hold,
        integrators,
        combs,
    );
    number(settled)
}

// One output out, with a sample.
#[unsafe(no_mangle)]
pub extern "C" fn mittenload_cic_interpolate_sample(
    order: &mut usize,
    delay: &mut usize,
    rate: &mut u32,
    countdown: &mut u32,
    unsettled: &mut usize,
    inputs: &mut u64,
    hold: &mut i32,
    integrators: &mut [i32; 8],
    combs: &mut [i32; 64],
    x: i32,
    value: &mut i32,
) -> u32
    ensures { Interpolate (signed_ops w32) (lent order.old delay.old rate.old countdown.old unsettled.old inputs.old hold.old integrators.old combs.old) (Some x) value.old (lent order.new delay.new rate.new countdown.new unsettled.new inputs.new hold.new integrators.new combs.new) value.new result }
{
    let mut s = numbers_in(order, delay, rate, countdown, unsettled, inputs, hold);
    let out = s.interpolate(integrators, combs, Some(x));
    numbers_out(s, order, delay, rate, countdown, unsettled, inputs, hold);
    *value = out.unwrap_or(*value);
    number(out)
}

// One output out, without one.
#[unsafe(no_mangle)]
pub extern "C" fn mittenload_cic_interpolate_held(
    order: &mut usize,
    delay: &mut usize,
    rate: &mut u32,
    countdown: &mut u32,
    unsettled: &mut usize,
    inputs: &mut u64,
    hold: &mut i32,
    integrators: &mut [i32; 8],
    combs: &mut [i32; 64],
    value: &mut i32,
) -> u32
    ensures { Interpolate (signed_ops w32) (lent order.old delay.old rate.old countdown.old unsettled.old inputs.old hold.old integrators.old combs.old) None value.old (lent order.new delay.new rate.new countdown.new unsettled.new inputs.new hold.new integrators.new combs.new) value.new result }
{
    let mut s = numbers_in(order, delay, rate, countdown, unsettled, inputs, hold);
    let out = s.interpolate(integrators, combs, None);
    numbers_out(s, order, delay, rate, countdown, unsettled, inputs, hold);
    *value = out.unwrap_or(*value);
    number(out)
}

// All of out is written, from as many inputs as are due; how many, to count. The integrators run in a copy, as a decimator's block does.
#[unsafe(no_mangle)]
pub extern "C" fn mittenload_cic_interpolate_block(
    order: &mut usize,
    delay: &mut usize,
    rate: &mut u32,
    countdown: &mut u32,
    unsettled: &mut usize,
    inputs: &mut u64,
    hold: &mut i32,
    integrators: &mut [i32; 8],
    combs: &mut [i32; 64],
    input: &[i32],
    out: &mut [i32],
    count: &mut usize,
) -> u32
    ensures { InterpolateBlock (signed_ops w32) (lent order.old delay.old rate.old countdown.old unsettled.old inputs.old hold.old integrators.old combs.old) input.now out.old count.old (lent order.new delay.new rate.new countdown.new unsettled.new inputs.new hold.new integrators.new combs.new) out.new count.new result }
{
    let mut s = numbers_in(order, delay, rate, countdown, unsettled, inputs, hold);
    let mut sums = *integrators;
    let read = s.interpolate_block(&mut sums, combs, input, out);
    *integrators = sums;
    numbers_out(s, order, delay, rate, countdown, unsettled, inputs, hold);
    *count = read.unwrap_or(*count);
    number(read)
}

// The interpolator's last output.
#[unsafe(no_mangle)]
pub extern "C" fn mittenload_cic_get_interpolate(
    order: &usize,
    delay: &usize,
    rate: &u32,
    countdown: &u32,
    unsettled: &usize,
    inputs: &u64,
    hold: &i32,
    integrators: &[i32; 8],
    combs: &[i32; 64],
    value: &mut i32,
) -> u32
    ensures { GetInterpolate (signed_ops w32) (lent order.now delay.now rate.now countdown.now unsettled.now inputs.now hold.now integrators.now combs.now) value.old value.new result }
{
    let s = gathered(
        order,
        delay,
        rate,
        countdown,
        unsettled,
        inputs,
        hold,
        integrators,
        combs,
    );
    let out = s.get_interpolate();
    *value = out.unwrap_or(*value);
    number(out)
}
