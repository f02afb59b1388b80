// The states, gathered from lent fields and spread to them, and answers as numbers.
ghost use Rattle.std.specs.Prelude.{◌≡◌};
ghost use Rattle.capi_loops.specs.States.{wrap_at, wrap_number, clamp_at, fields_at, pll_in, fields_of, loop_at, config_at, rpll_at};

use pll::{PLL, PLLState};
use rpll::{RPLL, RPLLConfig};
use unwrap::clamp_wrap::ClampWrap;
use unwrap::wrapping::Wrap;

#[tactic(auto, unfolding(crate::specs::States::wrap_at))]
fn wrap_at(n: u32) -> Wrap
    ensures { result ≡ wrap_at n }
{
    match n {
        0 => Wrap::None,
        1 => Wrap::Positive,
        _ => Wrap::Negative,
    }
}

#[tactic(auto, unfolding(crate::specs::States::wrap_number))]
pub(crate) fn wrap_number(w: Wrap) -> u32
    ensures { result ≡ wrap_number w }
{
    match w {
        Wrap::None => 0,
        Wrap::Positive => 1,
        Wrap::Negative => 2,
    }
}

pub(crate) fn clamp_in(x0: &i32, clamp: &u32) -> ClampWrap
    ensures { result ≡ clamp_at x0.now clamp.now }
{
    ClampWrap {
        x0: *x0,
        clamp: wrap_at(*clamp),
    }
}

pub(crate) fn clamp_out(next: ClampWrap, x0: &mut i32, clamp: &mut u32)
    ensures { (x0.new ≡ next.x0) × (clamp.new ≡ wrap_number next.clamp) }
{
    *x0 = next.x0;
    *clamp = wrap_number(next.clamp);
}

pub(crate) fn pll_in(
    x0: &i32,
    clamp: &u32,
    z0: &i32,
    y0: &i32,
    f0: &i64,
    f: &i64,
    y: &i32,
) -> PLLState
    ensures { result ≡ pll_in (fields_at x0.now clamp.now z0.now y0.now f0.now f.now y.now) }
{
    PLLState {
        clamp: clamp_in(x0, clamp),
        z0: *z0,
        y0: *y0,
        f0: *f0,
        f: *f,
        y: *y,
    }
}

pub(crate) fn pll_out(
    next: PLLState,
    x0: &mut i32,
    clamp: &mut u32,
    z0: &mut i32,
    y0: &mut i32,
    f0: &mut i64,
    f: &mut i64,
    y: &mut i32,
)
    ensures { fields_at x0.new clamp.new z0.new y0.new f0.new f.new y.new ≡ fields_of next }
{
    clamp_out(next.clamp, x0, clamp);
    *z0 = next.z0;
    *y0 = next.y0;
    *f0 = next.f0;
    *f = next.f;
    *y = next.y;
}

pub(crate) fn loop_in(b0: &i32, b1: &i32, a1: &i32) -> PLL
    ensures { result ≡ loop_at b0.now b1.now a1.now }
{
    PLL {
        b0: *b0,
        b1: *b1,
        a1: *a1,
    }
}

pub(crate) fn config_in(dt2: &u8, lock: &u8, gain: &u8) -> RPLLConfig
    ensures { result ≡ config_at dt2.now lock.now gain.now }
{
    RPLLConfig {
        dt2: *dt2,
        shift_frequency: *lock,
        shift_phase: *gain,
    }
}

pub(crate) fn rpll_in(x: &i32, ff: &u32, f: &u32, y: &i32) -> RPLL
    ensures { result ≡ rpll_at x.now ff.now f.now y.now }
{
    RPLL {
        x: *x,
        ff: *ff,
        f: *f,
        y: *y,
    }
}

pub(crate) fn rpll_out(next: RPLL, x: &mut i32, ff: &mut u32, f: &mut u32, y: &mut i32)
    ensures { rpll_at x.new ff.new f.new y.new ≡ next }
{
    *x = next.x;
    *ff = next.ff;
    *f = next.f;
    *y = next.y;
}
