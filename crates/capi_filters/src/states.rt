// The states and coefficients of the filters, gathered from lent fields and spread to them.
ghost use Rattle.std.specs.Prelude.{◌≡◌};
ghost use Rattle.capi_filters.specs.States.{unwrapper_at, wdf_at, dsm_at, df1_at, df2t_at, wide_at, dither_at};
ghost use Rattle.capi_filters.specs.States.{float_at, float_clamp_at, word_at, word_clamp_at};

use biquad::biquad::Biquad;
use biquad::biquad_clamp::BiquadClamp;
use biquad::direct_form1::DirectForm1;
use biquad::direct_form2_transposed::DirectForm2Transposed;
use biquad_fixed::dither::DirectForm1Dither;
use biquad_fixed::wide::DirectForm1Wide;
use dsm::Dsm;
use unwrap::unwrapper::Unwrapper;
use wdf::filter::Wdf;

pub(crate) fn unwrapper_in(y: &i64) -> Unwrapper
    ensures { result ≡ unwrapper_at y.now }
{
    Unwrapper { y: *y }
}

pub(crate) fn unwrapper_out(next: Unwrapper, y: &mut i64)
    ensures { unwrapper_at y.new ≡ next }
{
    *y = next.y;
}

pub(crate) fn wdf_in(sections: &usize, architecture: &u32, a: &[i32; 8], z: &[i32; 8]) -> Wdf
    ensures { result ≡ wdf_at sections.now architecture.now a.now z.now }
{
    Wdf {
        sections: *sections,
        architecture: *architecture,
        a: *a,
        z: *z,
    }
}

pub(crate) fn wdf_out(
    next: Wdf,
    sections: &mut usize,
    architecture: &mut u32,
    a: &mut [i32; 8],
    z: &mut [i32; 8],
)
    ensures { wdf_at sections.new architecture.new a.new z.new ≡ next }
{
    let coefficients = next.a;
    let cells = next.z;
    *sections = next.sections;
    *architecture = next.architecture;
    *a = coefficients;
    *z = cells;
}

pub(crate) fn dsm_in(order: &usize, accumulators: &[u32; 8], retained: &[i16; 8]) -> Dsm
    ensures { result ≡ dsm_at order.now accumulators.now retained.now }
{
    Dsm {
        order: *order,
        accumulators: *accumulators,
        retained: *retained,
    }
}

pub(crate) fn dsm_out(
    next: Dsm,
    order: &mut usize,
    accumulators: &mut [u32; 8],
    retained: &mut [i16; 8],
)
    ensures { dsm_at order.new accumulators.new retained.new ≡ next }
{
    let cells = next.accumulators;
    let kept = next.retained;
    *order = next.order;
    *accumulators = cells;
    *retained = kept;
}

pub(crate) fn df1_in(x1: &f64, x2: &f64, y1: &f64, y2: &f64) -> DirectForm1
    ensures { result ≡ df1_at x1.now x2.now y1.now y2.now }
{
    DirectForm1 {
        x1: *x1,
        x2: *x2,
        y1: *y1,
        y2: *y2,
    }
}

pub(crate) fn df1_out(next: DirectForm1, x1: &mut f64, x2: &mut f64, y1: &mut f64, y2: &mut f64)
    ensures { df1_at x1.new x2.new y1.new y2.new ≡ next }
{
    *x1 = next.x1;
    *x2 = next.x2;
    *y1 = next.y1;
    *y2 = next.y2;
}

pub(crate) fn df2t_in(s1: &f64, s2: &f64) -> DirectForm2Transposed
    ensures { result ≡ df2t_at s1.now s2.now }
{
    DirectForm2Transposed { s1: *s1, s2: *s2 }
}

pub(crate) fn df2t_out(next: DirectForm2Transposed, s1: &mut f64, s2: &mut f64)
    ensures { df2t_at s1.new s2.new ≡ next }
{
    *s1 = next.s1;
    *s2 = next.s2;
}

pub(crate) fn wide_in(x1: &i32, x2: &i32, y1: &i64, y2: &i64) -> DirectForm1Wide
    ensures { result ≡ wide_at x1.now x2.now y1.now y2.now }
{
    DirectForm1Wide {
        x1: *x1,
        x2: *x2,
        y1: *y1,
        y2: *y2,
    }
}

pub(crate) fn wide_out(
    next: DirectForm1Wide,
    x1: &mut i32,
    x2: &mut i32,
    y1: &mut i64,
    y2: &mut i64,
)
    ensures { wide_at x1.new x2.new y1.new y2.new ≡ next }
{
    *x1 = next.x1;
    *x2 = next.x2;
    *y1 = next.y1;
    *y2 = next.y2;
}

pub(crate) fn dither_in(x1: &i32, x2: &i32, y1: &i32, y2: &i32, e: &u32) -> DirectForm1Dither
    ensures { result ≡ dither_at x1.now x2.now y1.now y2.now e.now }
{
    DirectForm1Dither {
        x1: *x1,
        x2: *x2,
        y1: *y1,
        y2: *y2,
        e: *e,
    }
}

pub(crate) fn dither_out(
    next: DirectForm1Dither,
    x1: &mut i32,
    x2: &mut i32,
    y1: &mut i32,
    y2: &mut i32,
    e: &mut u32,
)
    ensures { dither_at x1.new x2.new y1.new y2.new e.new ≡ next }
{
    *x1 = next.x1;
    *x2 = next.x2;
    *y1 = next.y1;
    *y2 = next.y2;
    *e = next.e;
}

pub(crate) fn float_in(b0: &f64, b1: &f64, b2: &f64, a1: &f64, a2: &f64) -> Biquad
    ensures { result ≡ float_at b0.now b1.now b2.now a1.now a2.now }
{
    Biquad {
        b0: *b0,
        b1: *b1,
        b2: *b2,
        a1: *a1,
        a2: *a2,
    }
}

pub(crate) fn float_clamp_in(
    b0: &f64,
    b1: &f64,
    b2: &f64,
    a1: &f64,
    a2: &f64,
    u: &f64,
    min: &f64,
    max: &f64,
) -> BiquadClamp
    ensures { result ≡ float_clamp_at b0.now b1.now b2.now a1.now a2.now u.now min.now max.now }
{
    BiquadClamp {
        b0: *b0,
        b1: *b1,
        b2: *b2,
        a1: *a1,
        a2: *a2,
        u: *u,
        min: *min,
        max: *max,
    }
}

pub(crate) fn word_in(
    b0: &i32,
    b1: &i32,
    b2: &i32,
    a1: &i32,
    a2: &i32,
    f: &u32,
) -> biquad_fixed::coefficients::Biquad
    ensures { result ≡ word_at b0.now b1.now b2.now a1.now a2.now f.now }
{
    biquad_fixed::coefficients::Biquad {
        b0: *b0,
        b1: *b1,
        b2: *b2,
        a1: *a1,
        a2: *a2,
        f: *f,
    }
}

pub(crate) fn word_clamp_in(
    b0: &i32,
    b1: &i32,
    b2: &i32,
    a1: &i32,
    a2: &i32,
    f: &u32,
    u: &i32,
    min: &i32,
    max: &i32,
) -> biquad_fixed::coefficients::BiquadClamp
    ensures { result ≡ word_clamp_at b0.now b1.now b2.now a1.now a2.now f.now u.now min.now max.now }
{
    biquad_fixed::coefficients::BiquadClamp {
        coeff: word_in(b0, b1, b2, a1, a2, f),
        u: *u,
        min: *min,
        max: *max,
    }
}
