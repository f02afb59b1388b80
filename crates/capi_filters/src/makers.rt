// What makes filters and asks about them. A call answers the number of its refusal, or 0, and a refused one leaves all that is lent as it was;
// one that nothing refuses answers its value.
ghost use Rattle.std.specs.Prelude.{◌≡◌};
ghost use Rattle.wdf.specs.Calls.{new_number, sections_number};
ghost use Rattle.wdf.specs.Retired.{moved};
ghost use Rattle.biquad.specs.Coefficients.{zpk_of, forward_gain, with_offset};
ghost use Rattle.capi_filters.specs.States.{dsm_at, wdf_at, float_at, float_clamp_at};
ghost use Rattle.capi_filters.specs.Makers.{pair_at, MakesDsm, Ranges, MakesWdf, Quantizes, Offsets};

use crate::states::{dsm_in, dsm_out, float_clamp_in, wdf_out};
use adapters::tpa::Tpa;
use biquad::biquad::Biquad;
use biquad::pair::Pair;
use blocks::number;
use dsm::{Dsm, OutputRange};
use wdf::filter::{Wdf, current_architecture};

// A modulator of zeros, of order n.
#[unsafe(no_mangle)]
pub extern "C" fn mittenload_dsm_new(
    order: &mut usize,
    accumulators: &mut [u32; 8],
    retained: &mut [i16; 8],
    n: usize,
) -> u32
    ensures { MakesDsm n (dsm_at order.old accumulators.old retained.old) (dsm_at order.new accumulators.new retained.new) result }
{
    match Dsm::new(n) {
        Ok(made) => {
            dsm_out(made, order, accumulators, retained);
            0
        }
        Err(refusal) => refusal.number(),
    }
}

// The least and the greatest output of a modulator.
#[unsafe(no_mangle)]
pub extern "C" fn mittenload_dsm_output_range(
    order: &usize,
    accumulators: &[u32; 8],
    retained: &[i16; 8],
    least: &mut i16,
    greatest: &mut i16,
) -> u32
    ensures { Ranges (dsm_at order.now accumulators.now retained.now) least.old greatest.old least.new greatest.new result }
{
    let range = dsm_in(order, accumulators, retained).output_range();
    let told = range.unwrap_or(OutputRange {
        least: *least,
        greatest: *greatest,
    });
    *least = told.least;
    *greatest = told.greatest;
    number(range)
}

// A filter of the sections, architecture and coefficients that stand in its fields, its cells zero.
#[unsafe(no_mangle)]
pub extern "C" fn mittenload_wdf_new(
    sections: &mut usize,
    architecture: &mut u32,
    a: &mut [i32; 8],
    z: &mut [i32; 8],
) -> u32
    ensures { MakesWdf (new_number sections.old architecture.old) (wdf_at sections.old architecture.old a.old z.old) (wdf_at sections.new architecture.new a.new z.new) result }
{
    match Wdf::new(*sections, *architecture, *a) {
        Ok(made) => {
            wdf_out(made, sections, architecture, a, z);
            0
        }
        Err(refusal) => refusal.number(),
    }
}

// The same of the settings of form 1, which may hold the retired adapters e and f.
#[unsafe(no_mangle)]
pub extern "C" fn mittenload_wdf_from_form1(
    sections: &mut usize,
    architecture: &mut u32,
    a: &mut [i32; 8],
    z: &mut [i32; 8],
) -> u32
    ensures { MakesWdf (sections_number sections.old architecture.old) (wdf_at sections.old architecture.old a.old z.old) (wdf_at sections.new architecture.new a.new z.new) result }
{
    match Wdf::from_form1(*sections, *architecture, *a) {
        Ok(made) => {
            wdf_out(made, sections, architecture, a, z);
            0
        }
        Err(refusal) => refusal.number(),
    }
}

// An architecture with b and c in the places of e and f.
#[unsafe(no_mangle)]
pub extern "C" fn mittenload_wdf_current_architecture(sections: usize, architecture: u32) -> u32
    ensures { result ≡ moved sections architecture }
{
    current_architecture(sections, architecture)
}

// The bits of the coefficient for the pole g and the adapter of a nibble.
#[unsafe(no_mangle)]
pub extern "C" fn mittenload_wdf_quantize(nibble: u8, g: f64, bits: &mut i32) -> u32
    ensures { Quantizes nibble g bits.old bits.new result }
{
    let quantized = Tpa::from(nibble).quantize(g);
    *bits = quantized.unwrap_or(*bits);
    number(quantized)
}

// The real roots x and y, or for any other number than 0 the complex pair x + jy and x - jy.
#[tactic(auto, unfolding(crate::specs::Makers::pair_at))]
fn pair_at(complex: u32, x: f64, y: f64) -> Pair
    ensures { result ≡ pair_at complex x y }
{
    if complex == 0 {
        return Pair::Real(x, y);
    }
    Pair::Complex(x, y)
}

// Coefficients from a pair of zeros, a pair of poles and a gain; `zeros` and `poles` say which kind of pair.
#[unsafe(no_mangle)]
pub extern "C" fn mittenload_biquad_from_zpk(
    zeros: u32,
    zx: f64,
    zy: f64,
    poles: u32,
    px: f64,
    py: f64,
    gain: f64,
    b0: &mut f64,
    b1: &mut f64,
    b2: &mut f64,
    a1: &mut f64,
    a2: &mut f64,
)
    ensures { float_at b0.new b1.new b2.new a1.new a2.new ≡ zpk_of (pair_at zeros zx zy) (pair_at poles px py) gain }
{
    let c = Biquad::from_zpk(pair_at(zeros, zx, zy), pair_at(poles, px, py), gain);
    *b0 = c.b0;
    *b1 = c.b1;
    *b2 = c.b2;
    *a1 = c.a1;
    *a2 = c.a2;
}

// The gain at frequency 0 from the input to the summing junction.
#[unsafe(no_mangle)]
pub extern "C" fn mittenload_biquad_forward_gain(b0: f64, b1: f64, b2: f64, a1: f64, a2: f64) -> f64
    ensures { result ≡ forward_gain (float_at b0 b1 b2 a1 a2) }
{
    Biquad { b0, b1, b2, a1, a2 }.forward_gain()
}

// The offset referred to the input.
#[unsafe(no_mangle)]
pub extern "C" fn mittenload_biquad_input_offset(
    b0: &f64,
    b1: &f64,
    b2: &f64,
    a1: &f64,
    a2: &f64,
    u: &f64,
    min: &f64,
    max: &f64,
    value: &mut f64,
) -> u32
    ensures { Offsets (float_clamp_at b0.now b1.now b2.now a1.now a2.now u.now min.now max.now) value.old value.new result }
{
    let offset = float_clamp_in(b0, b1, b2, a1, a2, u, min, max).input_offset();
    *value = offset.unwrap_or(*value);
    number(offset)
}

// The offset set so that it is i, referred to the input.
#[unsafe(no_mangle)]
pub extern "C" fn mittenload_biquad_set_input_offset(
    b0: &f64,
    b1: &f64,
    b2: &f64,
    a1: &f64,
    a2: &f64,
    u: &mut f64,
    min: &f64,
    max: &f64,
    i: f64,
)
    ensures { float_clamp_at b0.now b1.now b2.now a1.now a2.now u.new min.now max.now ≡ with_offset (float_clamp_at b0.now b1.now b2.now a1.now a2.now u.old min.now max.now) i }
{
    let mut c = float_clamp_in(b0, b1, b2, a1, a2, u, min, max);
    c.set_input_offset(i);
    *u = c.u;
}
