// A filter's parts.
ghost use Rattle.std.specs.Prelude.{◌≡◌};
ghost use Rattle.sums.specs.Calls.{resume_number};
ghost use Rattle.sums.specs.Counted.{resume_counted};
ghost use Rattle.cic.specs.Answers.{made_of};
ghost use Rattle.cic_calls.specs.Lent.{lent, numbers};

use blocks::Refusal;
use cic::state::Cic;
use cic::word::Word;
use lent::state::LentCic;

// The filter that stands in these parts.
pub fn gathered<W: Word>(
    order: &usize,
    delay: &usize,
    rate: &u32,
    countdown: &u32,
    unsettled: &usize,
    inputs: &u64,
    hold: &W,
    integrators: &[W; 8],
    combs: &[W; 64],
) -> Cic<W>
    ensures { result ≡ lent order.now delay.now rate.now countdown.now unsettled.now
        inputs.now hold.now integrators.now combs.now }
{
    Cic {
        order: *order,
        delay: *delay,
        rate: *rate,
        countdown: *countdown,
        unsettled: *unsettled,
        inputs: *inputs,
        hold: *hold,
        integrators: *integrators,
        combs: *combs,
    }
}

// The parts take what stands in the filter.
pub fn spread<W: Word>(
    filter: Cic<W>,
    order: &mut usize,
    delay: &mut usize,
    rate: &mut u32,
    countdown: &mut u32,
    unsettled: &mut usize,
    inputs: &mut u64,
    hold: &mut W,
    integrators: &mut [W; 8],
    combs: &mut [W; 64],
)
    ensures { lent order.new delay.new rate.new countdown.new unsettled.new
        inputs.new hold.new integrators.new combs.new ≡ filter }
{
    *order = filter.order;
    *delay = filter.delay;
    *rate = filter.rate;
    *countdown = filter.countdown;
    *unsettled = filter.unsettled;
    *inputs = filter.inputs;
    *hold = filter.hold;
    *integrators = filter.integrators;
    *combs = filter.combs;
}

// `Cic::resume` with what stands in the filter.
pub fn resumed<W: Word>(s: Cic<W>) -> Result<Cic<W>, Refusal>
    ensures { result ≡ made_of (resume_number s.order s.delay s.rate s.countdown)
        (resume_counted W.ops s.order s.delay s.rate s.integrators s.combs s.hold s.countdown s.inputs) }
{
    Cic::resume(
        s.order,
        s.delay,
        s.rate,
        s.integrators,
        s.combs,
        s.hold,
        s.countdown,
        s.inputs,
    )
}

// The numbers that stand in these parts.
pub fn numbers_in<W: Word>(
    order: &usize,
    delay: &usize,
    rate: &u32,
    countdown: &u32,
    unsettled: &usize,
    inputs: &u64,
    hold: &W,
) -> LentCic<W>
    ensures { result ≡ numbers order.now delay.now rate.now countdown.now unsettled.now inputs.now hold.now }
{
    numbers_with(*order, *delay, *rate, countdown, unsettled, inputs, hold)
}

// The parts take these numbers.
pub fn numbers_out<W: Word>(
    next: LentCic<W>,
    order: &mut usize,
    delay: &mut usize,
    rate: &mut u32,
    countdown: &mut u32,
    unsettled: &mut usize,
    inputs: &mut u64,
    hold: &mut W,
)
    ensures { numbers order.new delay.new rate.new countdown.new unsettled.new inputs.new hold.new ≡ next }
{
    *order = next.order;
    *delay = next.delay;
    *rate = next.rate;
    given_out(next, countdown, unsettled, inputs, hold);
}

// The same numbers, with order, delay and rate given.
pub fn numbers_with<W: Word>(
    order: usize,
    delay: usize,
    rate: u32,
    countdown: &u32,
    unsettled: &usize,
    inputs: &u64,
    hold: &W,
) -> LentCic<W>
    ensures { result ≡ numbers order delay rate countdown.now unsettled.now inputs.now hold.now }
{
    LentCic {
        order,
        delay,
        rate,
        countdown: *countdown,
        unsettled: *unsettled,
        inputs: *inputs,
        hold: *hold,
    }
}

// The parts that a step with an output changes take these numbers.
pub fn given_out<W: Word>(
    next: LentCic<W>,
    countdown: &mut u32,
    unsettled: &mut usize,
    inputs: &mut u64,
    hold: &mut W,
)
    ensures { numbers next.order next.delay next.rate countdown.new unsettled.new inputs.new hold.new ≡ next }
{
    *countdown = next.countdown;
    *unsettled = next.unsettled;
    *inputs = next.inputs;
    *hold = next.hold;
}
