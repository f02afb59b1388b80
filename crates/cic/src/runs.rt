// Blocks of steps, and the settled part of what a decimator's block wrote.
ghost use Rattle.std.specs.Prelude.{◌≡◌, MatchResult};
ghost use Rattle.blocks.specs.declared.refusal.Refusal.{Refusal};
ghost use Rattle.sums.specs.Runs.{fill_out, settled_number, settled_part};
ghost use Rattle.sums.specs.Counted.{block_state, block_out, fill_counted};
ghost use Rattle.shape.specs.Answers.{block_wrote, block_read};
ghost use Rattle.cic.specs.Reading.{state_of, counted_of};

use crate::state::Cic;
use crate::word::Word;
use blocks::Refusal;
pub use shape::runs::Written;

impl<W: Word> Cic<W> {
    // A block of inputs in, its outputs to the front of out. The rest of out stays. It answers how many are written
    // and, of the first, the count told and its input's number. Refused with 16 where it would take more than 2^64 - 1
    // inputs, and with 20 where out is shorter than the block needs; a refused block changes nothing.
    pub fn decimate_block(&mut self, input: &[W], out: &mut [W]) -> Result<Written, Refusal>
        ensures { (counted_of self.new ≡ block_state W.ops (counted_of self.old) input.now out.old)
            × (result ≡ block_wrote W.ops (counted_of self.old) input.now out.old)
            × (out.new ≡ block_out W.ops (counted_of self.old) input.now out.old) }
    {
        let mut numbers = self.numbers();
        // The integrators run in a copy, which the compiler keeps in registers.
        let mut sums = self.integrators;
        let wrote = numbers.decimate_block(&mut sums, &mut self.combs, input, out);
        self.integrators = sums;
        self.set_numbers(numbers);
        wrote
    }

    // Every element of out is written, from as many inputs as are due; later ones stay unread. It answers how many it read.
    // Refused with 23 where input is shorter than needed; a refused block changes nothing.
    pub fn interpolate_block(&mut self, input: &[W], out: &mut [W]) -> Result<usize, Refusal>
        ensures { (counted_of self.new ≡ fill_counted W.ops (counted_of self.old) input.now out.old)
            × (result ≡ block_read (state_of self.old) input.now out.old)
            × (out.new ≡ fill_out W.ops (state_of self.old) input.now out.old) }
    {
        let mut numbers = self.numbers();
        let mut sums = self.integrators;
        let read = numbers.interpolate_block(&mut sums, &mut self.combs, input, out);
        self.integrators = sums;
        self.set_numbers(numbers);
        read
    }
}

// The settled part of what a decimator's block wrote: the written outputs less the first `told`, the count that the
// block told. No input from before the last set_rate, resume, clear or new is in them; whether the inputs since were good
// ones it can't say. Empty where too few are written to settle, and where more are said to be written than out holds.
pub fn settled_part<W: Word>(out: &[W], written: usize, told: usize) -> &[W]
    ensures { result.now ≡ settled_part out.now written told }
{
    if out.len() < written {
        return &out[0..0];
    }
    if written < told {
        return &out[0..0];
    }
    &out[told..written]
}

// The same; refused with 20 where more are said to be written than out holds.
pub fn settled<W: Word>(out: &[W], written: usize, told: usize) -> Result<&[W], Refusal>
    ensures { MatchResult result
        (λ part. (part.now ≡ settled_part out.now written told) × (settled_number out.now written ≡ 0))
        (λ refusal. (refusal ≡ Refusal.ShortOutput) × (settled_number out.now written ≡ 20)) }
{
    if out.len() < written {
        return Err(Refusal::ShortOutput);
    }
    Ok(settled_part(out, written, told))
}
