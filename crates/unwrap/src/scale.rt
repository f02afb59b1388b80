// A wide value scaled down to a word.
ghost use Rattle.std.specs.Prelude.{◌≡◌, ◌≤◌, ◌^◌};
ghost use Rattle.words.specs.Words.{floor_div};
ghost use Rattle.unwrap.specs.Scales.{wide_value, clamped, scaled_of};

use blocks::Refusal;

// hi·2^32 + lo, divided by 2^shift and rounded down. The sum itself may not fit 64 bits: hi is scaled by what is left of
// 2^32 instead.
#[tactic(auto, using(words::proofs::Std::signed, crate::proofs::Scaling::divided_is))]
fn divided(lo: i32, hi: i32, shift: u32) -> i64
    requires { (1 ≤ shift) × (shift ≤ 32) }
    ensures { result ≡ floor_div (wide_value lo hi) (2 ^ shift) }
{
    (i64::from(hi) << (32 - shift)).wrapping_add(i64::from(lo) >> shift)
}

// The word nearest to v.
#[tactic(auto, using(crate::proofs::Scaling::held, crate::proofs::Scaling::clipped, crate::proofs::Scaling::clamped_fits))]
fn clamp(v: i64) -> i32
    ensures { result ≡ clamped v }
{
    v.clamp(i64::from(i32::MIN), i64::from(i32::MAX)) as i32
}

// hi·2^32 + lo, divided by 2^shift, rounded down, then clamped to the word.
// ScaleShift where shift is outside 1..32.
#[tactic(auto, unfolding(crate::specs::Scales::scaled_of))]
pub fn saturating_scale(lo: i32, hi: i32, shift: u32) -> Result<i32, Refusal>
    ensures { result ≡ scaled_of lo hi shift }
{
    if shift == 0 || shift > 32 {
        return Err(Refusal::ScaleShift);
    }
    Ok(clamp(divided(lo, hi, shift)))
}
