// Phase words and phase-locked loops.
ghost use Rattle.std.specs.Prelude.{◌≡◌, length};
ghost use Rattle.blocks.specs.Scan.{scan};
ghost use Rattle.unwrap.specs.Phases.{clamp_out, clamp_next, step_of, grown};
ghost use Rattle.pll.specs.Loops.{tracked_phase, tracked_next};
ghost use Rattle.bench_exports.specs.Fresh.{block_left, block_left_by, zero_clamp, zero_unwrapper, zero_pll, loop_of, configured};
ghost use Rattle.bench_exports.specs.Fresh.{phases_left, frequencies_left, scale_out, scale_next};

use pll::{PLL, PLLState};
use rpll::{RPLL, RPLLConfig};
use unwrap::clamp_wrap::ClampWrap;
use unwrap::scale::saturating_scale;
use unwrap::unwrapper::Unwrapper;
use unwrap::wrapping::Wrap;

// No input yet, no clamp.
fn unclamped_wrap() -> ClampWrap
    ensures { result ≡ zero_clamp }
{
    ClampWrap {
        x0: 0,
        clamp: Wrap::None,
    }
}

// A clamp's block.
#[unsafe(no_mangle)]
pub extern "C" fn bench_clamp_wrap(xs: &[i32], ys: &mut [i32])
    ensures { ys.new ≡ block_left 0 clamp_out clamp_next zero_clamp xs.now ys.old }
{
    let mut state = unclamped_wrap();
    let _ = state.block(xs, ys);
}

// An unwrapper's block.
#[unsafe(no_mangle)]
pub extern "C" fn bench_unwrapper(xs: &[i32], ys: &mut [i32])
    ensures { ys.new ≡ block_left 0 step_of grown zero_unwrapper xs.now ys.old }
{
    let mut state = Unwrapper { y: 0 };
    let _ = state.block(xs, ys);
}

// A loop's coefficients.
fn lead_lag(b0: i32, b1: i32, a1: i32) -> PLL
    ensures { result ≡ loop_of b0 b1 a1 }
{
    PLL { b0, b1, a1 }
}

// A phase-locked loop's block.
#[unsafe(no_mangle)]
pub extern "C" fn bench_pll(b0: i32, b1: i32, a1: i32, xs: &[i32], ys: &mut [i32])
    ensures { ys.new ≡ block_left_by (λ p. 0) tracked_phase tracked_next (loop_of b0 b1 a1) zero_pll
        xs.now ys.old }
{
    let mut state = PLLState {
        clamp: unclamped_wrap(),
        z0: 0,
        y0: 0,
        f0: 0,
        f: 0,
        y: 0,
    };
    let _ = lead_lag(b0, b1, a1).block(&mut state, xs, ys);
}

// A reciprocal loop's block.
#[unsafe(no_mangle)]
pub extern "C" fn bench_rpll(
    dt2: u8,
    frequency: u8,
    lock: u8,
    there: &[bool],
    xs: &[i32],
    ys: &mut [i32],
    fs: &mut [i32],
)
    ensures { (ys.new ≡ phases_left (configured dt2 frequency lock) there.now xs.now
        ys.old fs.old)
        × (fs.new ≡ frequencies_left (configured dt2 frequency lock) there.now xs.now
        ys.old fs.old) }
{
    let config = RPLLConfig {
        dt2,
        shift_frequency: frequency,
        shift_phase: lock,
    };
    let mut state = RPLL {
        x: 0,
        ff: 0,
        f: 0,
        y: 0,
    };
    let _ = config.block(&mut state, there, xs, ys, fs);
}

fn scale_all(hi: i32, shift: u32, xs: &[i32], ys: &mut [i32])
    requires { length xs.now ≡ length ys.old }
    ensures { ys.new ≡ scan (scale_out shift) scale_next hi xs.now }
{
    for (i, &x) in xs.iter().enumerate() {
        ys[i] = saturating_scale(x, hi, shift).unwrap_or(0);
    }
}

// `saturating_scale` of each number, all with the same hi and shift.
#[unsafe(no_mangle)]
pub extern "C" fn bench_scale(hi: i32, shift: u32, xs: &[i32], ys: &mut [i32])
    ensures { ys.new ≡ block_left 0 (scale_out shift) scale_next hi xs.now ys.old }
{
    if xs.len() != ys.len() {
        return;
    }
    scale_all(hi, shift, xs, ys);
}
