// Clamps and loops. Each call answers the number of its refusal, or 0; a refused one leaves all that is lent as it was. A block's outputs are
// as many as its inputs; a block of one is a step.
ghost use Rattle.std.specs.Prelude.{◌≡◌, Option, Some, None};
ghost use Rattle.blocks.specs.Refusals.{answer};
ghost use Rattle.rpll.specs.Blocks.{block_number, LoopBlocked};
ghost use Rattle.capi_loops.specs.States.{fields_at, loop_at, config_at, rpll_at};
ghost use Rattle.capi_loops.specs.Calls.{Clamps, Tracks, Locks, Scales};

use crate::states::{clamp_in, clamp_out, config_in, loop_in, pll_in, pll_out, rpll_in, rpll_out};
use blocks::number;
use rpll::RPLLConfig;
use unwrap::scale::saturating_scale;

#[unsafe(no_mangle)]
pub extern "C" fn mittenload_clamp_wrap(
    x0: &mut i32,
    clamp: &mut u32,
    input: &[i32],
    out: &mut [i32],
) -> u32
    ensures { Clamps x0.old clamp.old input.now out.old x0.new clamp.new out.new result }
{
    let mut state = clamp_in(x0, clamp);
    match state.block(input, out) {
        Ok(()) => {
            clamp_out(state, x0, clamp);
            0
        }
        Err(refusal) => refusal.number(),
    }
}

#[unsafe(no_mangle)]
pub extern "C" fn mittenload_pll(
    b0: &i32,
    b1: &i32,
    a1: &i32,
    x0: &mut i32,
    clamp: &mut u32,
    z0: &mut i32,
    y0: &mut i32,
    f0: &mut i64,
    f: &mut i64,
    y: &mut i32,
    input: &[i32],
    out: &mut [i32],
) -> u32
    ensures { Tracks (loop_at b0.now b1.now a1.now) (fields_at x0.old clamp.old z0.old y0.old f0.old f.old y.old) input.now out.old (fields_at x0.new clamp.new z0.new y0.new f0.new f.new y.new) out.new result }
{
    let coeff = loop_in(b0, b1, a1);
    let mut state = pll_in(x0, clamp, z0, y0, f0, f, y);
    match coeff.block(&mut state, input, out) {
        Ok(()) => {
            pll_out(state, x0, clamp, z0, y0, f0, f, y);
            0
        }
        Err(refusal) => refusal.number(),
    }
}

// A step, with the timestamp where there is one.
fn step(
    config: RPLLConfig,
    x: &mut i32,
    ff: &mut u32,
    f: &mut u32,
    y: &mut i32,
    at: Option<i32>,
    phase: &mut i32,
    frequency: &mut i32,
) -> u32
    ensures { Locks config (rpll_at x.old ff.old f.old y.old) at phase.old frequency.old (rpll_at x.new ff.new f.new y.new) phase.new frequency.new result }
{
    let mut state = rpll_in(x, ff, f, y);
    let answer = config.process(&mut state, at);
    rpll_out(state, x, ff, f, y);
    match answer {
        Ok(estimate) => {
            *phase = estimate.phase;
            *frequency = estimate.frequency;
            0
        }
        Err(refusal) => refusal.number(),
    }
}

#[unsafe(no_mangle)]
pub extern "C" fn mittenload_rpll_at(
    dt2: &u8,
    lock: &u8,
    gain: &u8,
    x: &mut i32,
    ff: &mut u32,
    f: &mut u32,
    y: &mut i32,
    at: i32,
    phase: &mut i32,
    frequency: &mut i32,
) -> u32
    ensures { Locks (config_at dt2.now lock.now gain.now) (rpll_at x.old ff.old f.old y.old) (Some at) phase.old frequency.old (rpll_at x.new ff.new f.new y.new) phase.new frequency.new result }
{
    step(
        config_in(dt2, lock, gain),
        x,
        ff,
        f,
        y,
        Some(at),
        phase,
        frequency,
    )
}

#[unsafe(no_mangle)]
pub extern "C" fn mittenload_rpll_missing(
    dt2: &u8,
    lock: &u8,
    gain: &u8,
    x: &mut i32,
    ff: &mut u32,
    f: &mut u32,
    y: &mut i32,
    phase: &mut i32,
    frequency: &mut i32,
) -> u32
    ensures { Locks (config_at dt2.now lock.now gain.now) (rpll_at x.old ff.old f.old y.old) None phase.old frequency.old (rpll_at x.new ff.new f.new y.new) phase.new frequency.new result }
{
    step(
        config_in(dt2, lock, gain),
        x,
        ff,
        f,
        y,
        None,
        phase,
        frequency,
    )
}

// Steps in turn, step i with the timestamp xs[i] where there[i], else without; their phases and frequencies to phases and frequencies.
#[unsafe(no_mangle)]
pub extern "C" fn mittenload_rpll_block(
    dt2: &u8,
    lock: &u8,
    gain: &u8,
    x: &mut i32,
    ff: &mut u32,
    f: &mut u32,
    y: &mut i32,
    there: &[bool],
    xs: &[i32],
    phases: &mut [i32],
    frequencies: &mut [i32],
) -> u32
    ensures number { result ≡ block_number (config_at dt2.now lock.now gain.now) there.now xs.now phases.old frequencies.old }
    ensures blocked { LoopBlocked (config_at dt2.now lock.now gain.now) (rpll_at x.old ff.old f.old y.old) there.now xs.now phases.old frequencies.old (rpll_at x.new ff.new f.new y.new) (answer result tt) phases.new frequencies.new }
{
    let config = config_in(dt2, lock, gain);
    let mut state = rpll_in(x, ff, f, y);
    let answer = config.block(&mut state, there, xs, phases, frequencies);
    rpll_out(state, x, ff, f, y);
    number(answer)
}

// (hi·2^32 + lo) / 2^shift, rounded down and clamped to an i32.
#[unsafe(no_mangle)]
pub extern "C" fn mittenload_saturating_scale(lo: i32, hi: i32, shift: u32, value: &mut i32) -> u32
    ensures { Scales lo hi shift value.old value.new result }
{
    match saturating_scale(lo, hi, shift) {
        Ok(scaled) => {
            *value = scaled;
            0
        }
        Err(refusal) => refusal.number(),
    }
}
