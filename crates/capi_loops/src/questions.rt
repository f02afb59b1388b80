// What nothing refuses: each answers its value.
ghost use Rattle.std.specs.Prelude.{◌≡◌};
ghost use Rattle.unwrap.specs.Phases.{turns_of, phase_of};
ghost use Rattle.pll.specs.Loops.{frequency_of};
ghost use Rattle.capi_loops.specs.States.{fields_at, pll_in};
ghost use Rattle.capi_loops.specs.Calls.{Differs, Predicts};

use crate::states::{pll_in, wrap_number};
use unwrap::unwrapper::Unwrapper;
use unwrap::wrapping::overflowing_sub;

// The turns of an unwrapped phase, modulo 2^32.
#[unsafe(no_mangle)]
pub extern "C" fn mittenload_unwrapper_wraps(y: i64) -> i32
    ensures { result ≡ turns_of y }
{
    Unwrapper { y }.wraps()
}

// Its phase: the low word.
#[unsafe(no_mangle)]
pub extern "C" fn mittenload_unwrapper_phase(y: i64) -> i32
    ensures { result ≡ phase_of y }
{
    Unwrapper { y }.phase()
}

// y - x modulo 2^32; to wrap, the sign of what the wrap added.
#[unsafe(no_mangle)]
pub extern "C" fn mittenload_overflowing_sub(y: i32, x: i32, wrap: &mut u32) -> i32
    ensures { Differs y x wrap.new result }
{
    let difference = overflowing_sub(y, x);
    *wrap = wrap_number(difference.wrap);
    difference.delta
}

// The loop's phase an update period on, for an update without an input; all else of its state stays.
#[unsafe(no_mangle)]
pub extern "C" fn mittenload_pll_predict(
    x0: &i32,
    clamp: &u32,
    z0: &i32,
    y0: &i32,
    f0: &i64,
    f: &i64,
    y: &mut i32,
) -> i32
    ensures { Predicts (fields_at x0.now clamp.now z0.now y0.now f0.now f.now y.old) y.new result }
{
    let mut state = pll_in(x0, clamp, z0, y0, f0, f, y);
    *y = state.predict();
    *y
}

// Its frequency.
#[unsafe(no_mangle)]
pub extern "C" fn mittenload_pll_frequency(
    x0: &i32,
    clamp: &u32,
    z0: &i32,
    y0: &i32,
    f0: &i64,
    f: &i64,
    y: &i32,
) -> i32
    ensures { result ≡ frequency_of (pll_in (fields_at x0.now clamp.now z0.now y0.now f0.now f.now y.now)) }
{
    pll_in(x0, clamp, z0, y0, f0, f, y).frequency()
}
