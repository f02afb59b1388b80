// Questions about a decimator's or interpolator's numbers, whatever its words, for C and Rust to link. Each answers the number of its refusal,
// or 0, and is the one of the same name of the crate shape.

#![tactic(auto)]

ghost use Rattle.std.specs.Prelude.{◌≡◌};
ghost use Rattle.sums.specs.State.{refusal_of};
ghost use Rattle.sums.specs.Runs.{needed};
ghost use Rattle.sums.specs.Calls.{gain_number_of, gain_of, gain_log2_of, response_length_of, fit_number_of, fits_of};
ghost use Rattle.blocks.specs.Refusals.{number_in};
ghost use Rattle.capi_questions.specs.Answers.{told_or, Tells, Fits};

use blocks::Refusal;
use shape::numbers::Numbers;

// The number of an answer's refusal, or 0.
fn number<T: Copy>(answer: Result<T, Refusal>) -> u32
    ensures { result ≡ number_in answer }
{
    match answer {
        Ok(_) => 0,
        Err(r) => r.number(),
    }
}

// Writes a question's value, if there is one, and answers its number.
fn tell(answer: Result<u64, Refusal>, value: &mut u64) -> u32
    ensures { (result ≡ number_in answer) × (value.new ≡ told_or answer value.old) }
{
    if let Ok(v) = answer {
        *value = v;
    }
    number(answer)
}

// The number of the first test that such a state fails, or 0.
#[tactic(auto, using(shape::proofs::Known::known, shape::proofs::Known::known_refusal))]
#[unsafe(no_mangle)]
pub extern "C" fn mittenload_refusal(
    order: usize,
    delay: usize,
    rate: u32,
    countdown: u32,
    unsettled: usize,
) -> u32
    ensures { result ≡ refusal_of order delay rate countdown unsettled }
{
    let numbers = Numbers {
        order,
        delay,
        rate,
        countdown,
        unsettled,
    };
    number(numbers.check())
}

// The gain (R.M)^N. 14 above 2^63 - 1.
#[unsafe(no_mangle)]
pub extern "C" fn mittenload_gain(
    order: usize,
    delay: usize,
    rate: u32,
    countdown: u32,
    unsettled: usize,
    value: &mut u64,
) -> u32
    ensures { Tells (gain_number_of order delay rate countdown unsettled) (gain_of order delay rate) value.old value.new result }
{
    let numbers = Numbers {
        order,
        delay,
        rate,
        countdown,
        unsettled,
    };
    tell(numbers.gain(), value)
}

// The right shift that undoes the gain.
#[unsafe(no_mangle)]
pub extern "C" fn mittenload_gain_log2(
    order: usize,
    delay: usize,
    rate: u32,
    countdown: u32,
    unsettled: usize,
    value: &mut u64,
) -> u32
    ensures { Tells (refusal_of order delay rate countdown unsettled) (gain_log2_of order delay rate) value.old value.new result }
{
    let numbers = Numbers {
        order,
        delay,
        rate,
        countdown,
        unsettled,
    };
    tell(numbers.gain_log2(), value)
}

// The steps at the high rate until an input's answer is over.
#[unsafe(no_mangle)]
pub extern "C" fn mittenload_response_length(
    order: usize,
    delay: usize,
    rate: u32,
    countdown: u32,
    unsettled: usize,
    value: &mut u64,
) -> u32
    ensures { Tells (refusal_of order delay rate countdown unsettled) (response_length_of order delay rate) value.old value.new result }
{
    let numbers = Numbers {
        order,
        delay,
        rate,
        countdown,
        unsettled,
    };
    tell(numbers.response_length(), value)
}

// The low-rate samples of a block of len at the high rate.
#[unsafe(no_mangle)]
pub extern "C" fn mittenload_low_rate_length(
    order: usize,
    delay: usize,
    rate: u32,
    countdown: u32,
    unsettled: usize,
    len: usize,
    value: &mut u64,
) -> u32
    ensures { Tells (refusal_of order delay rate countdown unsettled) (needed len countdown rate) value.old value.new result }
{
    let numbers = Numbers {
        order,
        delay,
        rate,
        countdown,
        unsettled,
    };
    tell(numbers.low_rate_length(len), value)
}

// Whether inputs of b signed bits make no output of so wide words wrap: 1 or 0. 17.
#[unsafe(no_mangle)]
pub extern "C" fn mittenload_fit(
    order: usize,
    delay: usize,
    rate: u32,
    countdown: u32,
    unsettled: usize,
    width: u32,
    b: u32,
    yes: &mut u32,
) -> u32
    ensures { Fits (fit_number_of (refusal_of order delay rate countdown unsettled) width b)
        (fits_of (gain_of order delay rate) width b) yes.old yes.new result }
{
    let numbers = Numbers {
        order,
        delay,
        rate,
        countdown,
        unsettled,
    };
    match numbers.fit(width, b) {
        Ok(fits) => {
            *yes = u32::from(fits);
            0
        }
        Err(r) => r.number(),
    }
}
