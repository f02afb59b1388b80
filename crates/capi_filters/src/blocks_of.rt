// Blocks, one output for each input; a block of one is a step. Coefficients and state are lent field by field. Each answers the number of
// its refusal, or 0; a refused block leaves all that is lent as it was.
ghost use Rattle.unwrap.specs.Phases.{step_of, grown};
ghost use Rattle.wdf.specs.Calls.{number, answer, next};
ghost use Rattle.biquad.specs.Forms.{sum1, next1, held1, onward1, sum2, next2, held2, onward2};
ghost use Rattle.biquad.specs.Answers.{limit_number};
ghost use Rattle.biquad_fixed.specs.Forms.{wide_out, wide_next, wide_held, wide_onward};
ghost use Rattle.biquad_fixed.specs.Forms.{dither_out, dither_next, dither_held, dither_onward};
ghost use Rattle.biquad_fixed.specs.Answers.{fraction_number, clamp_number};
ghost use Rattle.capi_filters.specs.Answers.{Leaves, Modulates};
ghost use Rattle.capi_filters.specs.States.{unwrapper_at, wdf_at, dsm_at, df1_at, df2t_at, wide_at, dither_at};
ghost use Rattle.capi_filters.specs.States.{float_at, float_clamp_at, word_at, word_clamp_at};

use crate::states::{
    df1_in, df1_out, df2t_in, df2t_out, dither_in, dither_out, dsm_in, dsm_out, float_clamp_in,
    float_in, unwrapper_in, unwrapper_out, wdf_in, wdf_out, wide_in, wide_out, word_clamp_in,
    word_in,
};
use blocks::number;

#[unsafe(no_mangle)]
pub extern "C" fn mittenload_unwrapper(y: &mut i64, input: &[i32], out: &mut [i32]) -> u32
    ensures { Leaves 0 step_of grown (unwrapper_at y.old) input.now out.old (unwrapper_at y.new) result out.new }
{
    let mut state = unwrapper_in(y);
    let done = state.block(input, out);
    unwrapper_out(state, y);
    number(done)
}

#[unsafe(no_mangle)]
pub extern "C" fn mittenload_wdf(
    sections: &mut usize,
    architecture: &mut u32,
    a: &mut [i32; 8],
    z: &mut [i32; 8],
    input: &[i32],
    out: &mut [i32],
) -> u32
    ensures { Leaves (number (wdf_at sections.old architecture.old a.old z.old)) answer next (wdf_at sections.old architecture.old a.old z.old) input.now out.old (wdf_at sections.new architecture.new a.new z.new) result out.new }
{
    let mut state = wdf_in(sections, architecture, a, z);
    // A refused block is told apart before the fields are spread: with `number` after `wdf_out` three sections cost 70
    // instructions an input and not 55.
    match state.block(input, out) {
        Ok(()) => {
            wdf_out(state, sections, architecture, a, z);
            0
        }
        Err(refusal) => refusal.number(),
    }
}

#[unsafe(no_mangle)]
pub extern "C" fn mittenload_df1(
    b0: &f64,
    b1: &f64,
    b2: &f64,
    a1: &f64,
    a2: &f64,
    x1: &mut f64,
    x2: &mut f64,
    y1: &mut f64,
    y2: &mut f64,
    input: &[f64],
    out: &mut [f64],
) -> u32
    ensures { Leaves 0 (sum1 (float_at b0.now b1.now b2.now a1.now a2.now)) (next1 (float_at b0.now b1.now b2.now a1.now a2.now)) (df1_at x1.old x2.old y1.old y2.old) input.now out.old (df1_at x1.new x2.new y1.new y2.new) result out.new }
{
    let coeff = float_in(b0, b1, b2, a1, a2);
    let mut state = df1_in(x1, x2, y1, y2);
    let done = state.block(coeff, input, out);
    df1_out(state, x1, x2, y1, y2);
    number(done)
}

#[unsafe(no_mangle)]
pub extern "C" fn mittenload_df1_clamp(
    b0: &f64,
    b1: &f64,
    b2: &f64,
    a1: &f64,
    a2: &f64,
    u: &f64,
    min: &f64,
    max: &f64,
    x1: &mut f64,
    x2: &mut f64,
    y1: &mut f64,
    y2: &mut f64,
    input: &[f64],
    out: &mut [f64],
) -> u32
    ensures { Leaves (limit_number (float_clamp_at b0.now b1.now b2.now a1.now a2.now u.now min.now max.now)) (held1 (float_clamp_at b0.now b1.now b2.now a1.now a2.now u.now min.now max.now)) (onward1 (float_clamp_at b0.now b1.now b2.now a1.now a2.now u.now min.now max.now)) (df1_at x1.old x2.old y1.old y2.old) input.now out.old (df1_at x1.new x2.new y1.new y2.new) result out.new }
{
    let coeff = float_clamp_in(b0, b1, b2, a1, a2, u, min, max);
    let mut state = df1_in(x1, x2, y1, y2);
    let done = state.block_clamp(coeff, input, out);
    df1_out(state, x1, x2, y1, y2);
    number(done)
}

#[unsafe(no_mangle)]
pub extern "C" fn mittenload_df2t(
    b0: &f64,
    b1: &f64,
    b2: &f64,
    a1: &f64,
    a2: &f64,
    s1: &mut f64,
    s2: &mut f64,
    input: &[f64],
    out: &mut [f64],
) -> u32
    ensures { Leaves 0 (sum2 (float_at b0.now b1.now b2.now a1.now a2.now)) (next2 (float_at b0.now b1.now b2.now a1.now a2.now)) (df2t_at s1.old s2.old) input.now out.old (df2t_at s1.new s2.new) result out.new }
{
    let coeff = float_in(b0, b1, b2, a1, a2);
    let mut state = df2t_in(s1, s2);
    let done = state.block(coeff, input, out);
    df2t_out(state, s1, s2);
    number(done)
}

#[unsafe(no_mangle)]
pub extern "C" fn mittenload_df2t_clamp(
    b0: &f64,
    b1: &f64,
    b2: &f64,
    a1: &f64,
    a2: &f64,
    u: &f64,
    min: &f64,
    max: &f64,
    s1: &mut f64,
    s2: &mut f64,
    input: &[f64],
    out: &mut [f64],
) -> u32
    ensures { Leaves (limit_number (float_clamp_at b0.now b1.now b2.now a1.now a2.now u.now min.now max.now)) (held2 (float_clamp_at b0.now b1.now b2.now a1.now a2.now u.now min.now max.now)) (onward2 (float_clamp_at b0.now b1.now b2.now a1.now a2.now u.now min.now max.now)) (df2t_at s1.old s2.old) input.now out.old (df2t_at s1.new s2.new) result out.new }
{
    let coeff = float_clamp_in(b0, b1, b2, a1, a2, u, min, max);
    let mut state = df2t_in(s1, s2);
    let done = state.block_clamp(coeff, input, out);
    df2t_out(state, s1, s2);
    number(done)
}

#[unsafe(no_mangle)]
pub extern "C" fn mittenload_wide(
    b0: &i32,
    b1: &i32,
    b2: &i32,
    a1: &i32,
    a2: &i32,
    f: &u32,
    x1: &mut i32,
    x2: &mut i32,
    y1: &mut i64,
    y2: &mut i64,
    input: &[i32],
    out: &mut [i32],
) -> u32
    ensures { Leaves (fraction_number 0 (word_at b0.now b1.now b2.now a1.now a2.now f.now)) (wide_out (word_at b0.now b1.now b2.now a1.now a2.now f.now)) (wide_next (word_at b0.now b1.now b2.now a1.now a2.now f.now)) (wide_at x1.old x2.old y1.old y2.old) input.now out.old (wide_at x1.new x2.new y1.new y2.new) result out.new }
{
    let coeff = word_in(b0, b1, b2, a1, a2, f);
    let mut state = wide_in(x1, x2, y1, y2);
    let done = state.block(coeff, input, out);
    wide_out(state, x1, x2, y1, y2);
    number(done)
}

#[unsafe(no_mangle)]
pub extern "C" fn mittenload_wide_clamp(
    b0: &i32,
    b1: &i32,
    b2: &i32,
    a1: &i32,
    a2: &i32,
    f: &u32,
    u: &i32,
    min: &i32,
    max: &i32,
    x1: &mut i32,
    x2: &mut i32,
    y1: &mut i64,
    y2: &mut i64,
    input: &[i32],
    out: &mut [i32],
) -> u32
    ensures { Leaves (clamp_number 0 (word_clamp_at b0.now b1.now b2.now a1.now a2.now f.now u.now min.now max.now)) (wide_held (word_clamp_at b0.now b1.now b2.now a1.now a2.now f.now u.now min.now max.now)) (wide_onward (word_clamp_at b0.now b1.now b2.now a1.now a2.now f.now u.now min.now max.now)) (wide_at x1.old x2.old y1.old y2.old) input.now out.old (wide_at x1.new x2.new y1.new y2.new) result out.new }
{
    let coeff = word_clamp_in(b0, b1, b2, a1, a2, f, u, min, max);
    let mut state = wide_in(x1, x2, y1, y2);
    let done = state.block_clamp(coeff, input, out);
    wide_out(state, x1, x2, y1, y2);
    number(done)
}

#[unsafe(no_mangle)]
pub extern "C" fn mittenload_dither(
    b0: &i32,
    b1: &i32,
    b2: &i32,
    a1: &i32,
    a2: &i32,
    f: &u32,
    x1: &mut i32,
    x2: &mut i32,
    y1: &mut i32,
    y2: &mut i32,
    e: &mut u32,
    input: &[i32],
    out: &mut [i32],
) -> u32
    ensures { Leaves (fraction_number 1 (word_at b0.now b1.now b2.now a1.now a2.now f.now)) (dither_out (word_at b0.now b1.now b2.now a1.now a2.now f.now)) (dither_next (word_at b0.now b1.now b2.now a1.now a2.now f.now)) (dither_at x1.old x2.old y1.old y2.old e.old) input.now out.old (dither_at x1.new x2.new y1.new y2.new e.new) result out.new }
{
    let coeff = word_in(b0, b1, b2, a1, a2, f);
    let mut state = dither_in(x1, x2, y1, y2, e);
    let done = state.block(coeff, input, out);
    dither_out(state, x1, x2, y1, y2, e);
    number(done)
}

#[unsafe(no_mangle)]
pub extern "C" fn mittenload_dither_clamp(
    b0: &i32,
    b1: &i32,
    b2: &i32,
    a1: &i32,
    a2: &i32,
    f: &u32,
    u: &i32,
    min: &i32,
    max: &i32,
    x1: &mut i32,
    x2: &mut i32,
    y1: &mut i32,
    y2: &mut i32,
    e: &mut u32,
    input: &[i32],
    out: &mut [i32],
) -> u32
    ensures { Leaves (clamp_number 1 (word_clamp_at b0.now b1.now b2.now a1.now a2.now f.now u.now min.now max.now)) (dither_held (word_clamp_at b0.now b1.now b2.now a1.now a2.now f.now u.now min.now max.now)) (dither_onward (word_clamp_at b0.now b1.now b2.now a1.now a2.now f.now u.now min.now max.now)) (dither_at x1.old x2.old y1.old y2.old e.old) input.now out.old (dither_at x1.new x2.new y1.new y2.new e.new) result out.new }
{
    let coeff = word_clamp_in(b0, b1, b2, a1, a2, f, u, min, max);
    let mut state = dither_in(x1, x2, y1, y2, e);
    let done = state.block_clamp(coeff, input, out);
    dither_out(state, x1, x2, y1, y2, e);
    number(done)
}

#[unsafe(no_mangle)]
pub extern "C" fn mittenload_dsm(
    order: &mut usize,
    accumulators: &mut [u32; 8],
    retained: &mut [i16; 8],
    input: &[u32],
    out: &mut [i16],
) -> u32
    ensures { Modulates (dsm_at order.old accumulators.old retained.old) input.now out.old (dsm_at order.new accumulators.new retained.new) out.new result }
{
    let mut state = dsm_in(order, accumulators, retained);
    let done = state.block(input, out);
    dsm_out(state, order, accumulators, retained);
    number(done)
}
