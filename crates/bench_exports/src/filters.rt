// Modulator, wave digital filter and biquads.
ghost use Rattle.std.specs.Prelude.{◌≡◌};
ghost use Rattle.blocks.specs.Scan.{scan};
ghost use Rattle.blocks.specs.Blocks.{unless};
ghost use Rattle.dsm.specs.Modulator.{modulator_out, next_of};
ghost use Rattle.dsm.specs.Calls as Modulator;
ghost use Rattle.wdf.specs.Calls.{number, answer, next};
ghost use Rattle.biquad.specs.Forms.{zero1, sum1, next1, held1, onward1, zero2, sum2, next2, held2, onward2};
ghost use Rattle.biquad.specs.Answers.{limit_number};
ghost use Rattle.biquad_fixed.specs.Forms.{wide_out, wide_next, wide_held, wide_onward};
ghost use Rattle.biquad_fixed.specs.Forms.{dither_out, dither_next, dither_held, dither_onward};
ghost use Rattle.biquad_fixed.specs.Answers.{fraction_number, clamp_number};
ghost use Rattle.bench_exports.specs.Fresh.{block_left, block_left_by, fresh_dsm, alike_wdf, zero_wide, zero_dither};
ghost use Rattle.bench_exports.specs.Fresh.{float_biquad, float_clamp, word_biquad, word_clamp};

use biquad::biquad::Biquad;
use biquad::biquad_clamp::BiquadClamp;
use biquad::direct_form1::DirectForm1;
use biquad::direct_form2_transposed::DirectForm2Transposed;
use biquad_fixed::dither::DirectForm1Dither;
use biquad_fixed::wide::DirectForm1Wide;
use dsm::Dsm;
use wdf::filter::Wdf;

// A modulator's block; an order above 8 runs as 0 does.
#[unsafe(no_mangle)]
pub extern "C" fn bench_dsm(order: usize, xs: &[u32], ys: &mut [i16])
    ensures { ys.new ≡ unless (Modulator.run_number (fresh_dsm order) xs.now ys.old)
        ys.old (scan modulator_out next_of (fresh_dsm order) xs.now) }
{
    let mut filter = Dsm::new(order).unwrap_or(Dsm::IDLE);
    let _ran = filter.block(xs, ys);
}

// A wave digital filter's block, of any adapters; every section has the coefficient a.
#[unsafe(no_mangle)]
pub extern "C" fn bench_wdf(sections: usize, architecture: u32, a: i32, xs: &[i32], ys: &mut [i32])
    ensures { ys.new ≡ block_left (number (alike_wdf sections architecture a)) answer next (alike_wdf sections architecture a)
        xs.now ys.old }
{
    let mut filter = Wdf::from_form1(sections, architecture, [a; 8]).unwrap_or(Wdf::EMPTY);
    let _ran = filter.block(xs, ys);
}

// Blocks of the biquads, from a state of zeros.
#[unsafe(no_mangle)]
pub extern "C" fn bench_df1(b0: f64, b1: f64, b2: f64, a1: f64, a2: f64, xs: &[f64], ys: &mut [f64])
    ensures { ys.new ≡ block_left_by (λ c. 0) sum1 next1 (float_biquad b0 b1 b2 a1 a2) zero1
        xs.now ys.old }
{
    let mut state = DirectForm1::default();
    let _ran = state.block(Biquad { b0, b1, b2, a1, a2 }, xs, ys);
}

#[unsafe(no_mangle)]
pub extern "C" fn bench_df2t(
    b0: f64,
    b1: f64,
    b2: f64,
    a1: f64,
    a2: f64,
    xs: &[f64],
    ys: &mut [f64],
)
    ensures { ys.new ≡ block_left_by (λ c. 0) sum2 next2 (float_biquad b0 b1 b2 a1 a2) zero2
        xs.now ys.old }
{
    let mut state = DirectForm2Transposed::default();
    let _ran = state.block(Biquad { b0, b1, b2, a1, a2 }, xs, ys);
}

#[unsafe(no_mangle)]
pub extern "C" fn bench_df1_clamp(
    b0: f64,
    b1: f64,
    b2: f64,
    a1: f64,
    a2: f64,
    u: f64,
    min: f64,
    max: f64,
    xs: &[f64],
    ys: &mut [f64],
)
    ensures { ys.new ≡ block_left_by limit_number held1 onward1 (float_clamp b0 b1 b2 a1 a2 u min max) zero1
        xs.now ys.old }
{
    let mut state = DirectForm1::default();
    let _ran = state.block_clamp(
        BiquadClamp {
            b0,
            b1,
            b2,
            a1,
            a2,
            u,
            min,
            max,
        },
        xs,
        ys,
    );
}

#[unsafe(no_mangle)]
pub extern "C" fn bench_df2t_clamp(
    b0: f64,
    b1: f64,
    b2: f64,
    a1: f64,
    a2: f64,
    u: f64,
    min: f64,
    max: f64,
    xs: &[f64],
    ys: &mut [f64],
)
    ensures { ys.new ≡ block_left_by limit_number held2 onward2 (float_clamp b0 b1 b2 a1 a2 u min max) zero2
        xs.now ys.old }
{
    let mut state = DirectForm2Transposed::default();
    let _ran = state.block_clamp(
        BiquadClamp {
            b0,
            b1,
            b2,
            a1,
            a2,
            u,
            min,
            max,
        },
        xs,
        ys,
    );
}

// Coefficients of words, and the same with an offset and limits.
fn coefficients(
    b0: i32,
    b1: i32,
    b2: i32,
    a1: i32,
    a2: i32,
    f: u32,
) -> biquad_fixed::coefficients::Biquad
    ensures { result ≡ word_biquad b0 b1 b2 a1 a2 f }
{
    biquad_fixed::coefficients::Biquad {
        b0,
        b1,
        b2,
        a1,
        a2,
        f,
    }
}

fn bounded(
    coeff: biquad_fixed::coefficients::Biquad,
    u: i32,
    min: i32,
    max: i32,
) -> biquad_fixed::coefficients::BiquadClamp
    ensures { result ≡ word_clamp coeff u min max }
{
    biquad_fixed::coefficients::BiquadClamp { coeff, u, min, max }
}

#[unsafe(no_mangle)]
pub extern "C" fn bench_wide(
    xs: &[i32],
    ys: &mut [i32],
    b0: i32,
    b1: i32,
    b2: i32,
    a1: i32,
    a2: i32,
    f: u32,
)
    ensures { ys.new ≡ block_left_by (fraction_number 0) wide_out wide_next (word_biquad b0 b1 b2 a1 a2 f) zero_wide
        xs.now ys.old }
{
    let mut state = DirectForm1Wide {
        x1: 0,
        x2: 0,
        y1: 0,
        y2: 0,
    };
    let coeff = coefficients(b0, b1, b2, a1, a2, f);
    let _ran = state.block(coeff, xs, ys);
}

#[unsafe(no_mangle)]
pub extern "C" fn bench_dither(
    xs: &[i32],
    ys: &mut [i32],
    b0: i32,
    b1: i32,
    b2: i32,
    a1: i32,
    a2: i32,
    f: u32,
)
    ensures { ys.new ≡ block_left_by (fraction_number 1) dither_out dither_next (word_biquad b0 b1 b2 a1 a2 f) zero_dither
        xs.now ys.old }
{
    let mut state = DirectForm1Dither {
        x1: 0,
        x2: 0,
        y1: 0,
        y2: 0,
        e: 0,
    };
    let coeff = coefficients(b0, b1, b2, a1, a2, f);
    let _ran = state.block(coeff, xs, ys);
}

#[unsafe(no_mangle)]
pub extern "C" fn bench_wide_clamp(
    xs: &[i32],
    ys: &mut [i32],
    b0: i32,
    b1: i32,
    b2: i32,
    a1: i32,
    a2: i32,
    f: u32,
    u: i32,
    min: i32,
    max: i32,
)
    ensures { ys.new ≡ block_left_by (clamp_number 0) wide_held wide_onward
        (word_clamp (word_biquad b0 b1 b2 a1 a2 f) u min max) zero_wide xs.now ys.old }
{
    let mut state = DirectForm1Wide {
        x1: 0,
        x2: 0,
        y1: 0,
        y2: 0,
    };
    let coeff = coefficients(b0, b1, b2, a1, a2, f);
    let limited = bounded(coeff, u, min, max);
    let _ran = state.block_clamp(limited, xs, ys);
}

#[unsafe(no_mangle)]
pub extern "C" fn bench_dither_clamp(
    xs: &[i32],
    ys: &mut [i32],
    b0: i32,
    b1: i32,
    b2: i32,
    a1: i32,
    a2: i32,
    f: u32,
    u: i32,
    min: i32,
    max: i32,
)
    ensures { ys.new ≡ block_left_by (clamp_number 1) dither_held dither_onward
        (word_clamp (word_biquad b0 b1 b2 a1 a2 f) u min max) zero_dither xs.now ys.old }
{
    let mut state = DirectForm1Dither {
        x1: 0,
        x2: 0,
        y1: 0,
        y2: 0,
        e: 0,
    };
    let coeff = coefficients(b0, b1, b2, a1, a2, f);
    let limited = bounded(coeff, u, min, max);
    let _ran = state.block_clamp(limited, xs, ys);
}
