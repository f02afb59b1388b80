// A recorder's state, and its calls.
ghost use Rattle.std.specs.Prelude.{◌≡◌, length};
ghost use Rattle.blocks.specs.Refusals.{answer};
ghost use Rattle.blocks.specs.Blocks.{Ran};
ghost use Rattle.unwrap.specs.Phases.{grown};
ghost use Rattle.sums.specs.Calls.{rate_number};
ghost use Rattle.cic.specs.Reading.{state_of};
ghost use Rattle.recorder.specs.Calls.{blank, Opens, pulled_of, push_number, pushed_of, rated_of, turn_out, took_of, took_answer, turns_left, out_left};

use blocks::{Filter, Refusal};
use cic::runs::Written;
use cic::state::Cic;
use unwrap::unwrapper::Unwrapper;

// The turns so far, the decimator, and whether the encoder's plug is in.
#[derive(Clone, Copy)]
pub struct Recorder {
    pub plugged: bool,
    pub turns: Unwrapper,
    pub filter: Cic<i64>,
}

// The words' turns, one for each.
fn unwrap_words(unwrapper: &mut Unwrapper, words: &[i32], turns: &mut [i64])
    requires { length words.now ≡ length turns.old }
    ensures { Ran turn_out grown unwrapper.old words.now unwrapper.new turns.new }
{
    for (i, &x) in words.iter().enumerate() {
        unwrapper.process(x);
        turns[i] = unwrapper.y;
    }
}

impl Recorder {
    // What stands where none was opened: a recorder at turn 0 with the plug in, its decimator `Cic::blank`.
    pub fn blank() -> Recorder
        ensures { result ≡ blank }
    {
        Recorder {
            plugged: true,
            turns: Unwrapper { y: 0 },
            filter: Cic::blank(),
        }
    }

    // A recorder at turn 0 with the plug in, its decimator new. Refused as `Cic::new` is; what stands for the recorder is then
    // `blank`.
    pub fn open(order: usize, delay: usize, rate: u32) -> Result<Recorder, Refusal>
        ensures { Opens order delay rate result }
    {
        let filter = Cic::new(order, delay, rate)?;
        Ok(Recorder {
            plugged: true,
            turns: Unwrapper { y: 0 },
            filter,
        })
    }

    // The plug is pulled: no word is taken until it is pushed back. All else stays.
    pub fn pull(&mut self)
        ensures { self.new ≡ pulled_of self.old }
    {
        self.plugged = false;
    }

    // The plug is pushed back: the decimator is resumed from what it holds, and tells N.M outputs as unsettled. The turns go
    // on from where they were. Refused as `Cic::resume` is; it is then as it was.
    pub fn push(&mut self) -> Result<(), Refusal>
        ensures { (self.new ≡ pushed_of self.old) × (result ≡ answer (push_number self.old) tt) }
    {
        let f = self.filter;
        let filter = Cic::resume(
            f.order,
            f.delay,
            f.rate,
            f.integrators,
            f.combs,
            f.hold,
            f.countdown,
            f.inputs,
        )?;
        self.filter = filter;
        self.plugged = true;
        Ok(())
    }

    // The decimator at another rate; turns and plug stay. Refused as `Cic::set_rate` is; it is then as it was.
    pub fn set_rate(&mut self, rate: u32) -> Result<(), Refusal>
        ensures { (self.new ≡ rated_of self.old rate) × (result ≡ answer (rate_number (state_of self.old.filter) rate) tt) }
    {
        self.filter.set_rate(rate)
    }

    // Words in, their turns to the front of `turns` and from there through the decimator, its outputs to the front of out.
    // Refused with 20 where `turns` is shorter than the words, then with 87 where the plug is out, nothing written; then as
    // the decimator's block is, with the turns written. A refused call leaves the recorder as it was.
    pub fn take(
        &mut self,
        words: &[i32],
        turns: &mut [i64],
        out: &mut [i64],
    ) -> Result<Written, Refusal>
        ensures { (self.new ≡ took_of self.old words.now turns.old out.old)
            × (result ≡ took_answer self.old words.now turns.old out.old)
            × (turns.new ≡ turns_left self.old words.now turns.old)
            × (out.new ≡ out_left self.old words.now turns.old out.old) }
    {
        let n = words.len();
        if turns.len() < n {
            return Err(Refusal::ShortOutput);
        }
        let plugged = self.plugged;
        if !plugged {
            return Err(Refusal::PlugOut);
        }
        let mut after = self.turns;
        unwrap_words(&mut after, words, &mut turns[..n]);
        let wrote = self.filter.decimate_block(&turns[..n], out)?;
        self.turns = after;
        Ok(wrote)
    }
}
