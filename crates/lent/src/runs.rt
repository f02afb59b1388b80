// Blocks of steps.
ghost use Rattle.std.specs.Prelude.{◌≡◌};
ghost use Rattle.sums.specs.Runs.{fill_out};
ghost use Rattle.sums.specs.Counted.{block_state, block_out, fill_counted};
ghost use Rattle.shape.specs.Answers.{block_wrote, block_read};
ghost use Rattle.lent.specs.Reading.{counted};

use crate::decimating::decimate_run;
use crate::interpolating::interpolate_run;
use crate::state::LentCic;
use crate::word::Word;
use blocks::Refusal;
pub use shape::runs::Written;

impl<W: Word> LentCic<W> {
    // A block of inputs in, its outputs to the front of out. The rest of out stays. It answers how many are written
    // and, of the first, the count told and its input's number. Refused with 16 where it would take more than 2^64 - 1
    // inputs, and with 20 where out is shorter than the block needs; a refused block changes nothing.
    pub fn decimate_block(
        &mut self,
        integrators: &mut [W; 8],
        combs: &mut [W; 64],
        input: &[W],
        out: &mut [W],
    ) -> Result<Written, Refusal>
        ensures { (counted self.new integrators.new combs.new
            ≡ block_state W.ops (counted self.old integrators.old combs.old) input.now out.old)
            × (result ≡ block_wrote W.ops (counted self.old integrators.old combs.old) input.now out.old)
            × (out.new ≡ block_out W.ops (counted self.old integrators.old combs.old) input.now out.old) }
    {
        let found = self.numbers();
        let inputs = found.take_block(self.inputs, input.len(), out.len())?;
        let r = decimate_run(integrators, combs, *self, input, out);
        let written = found.written(r.count, self.inputs);
        *self = r.numbers;
        self.inputs = inputs;
        Ok(written)
    }

    // Every element of out is written, from as many inputs as are due; later ones stay unread. It answers how many it read.
    // Refused with 23 where input is shorter than needed; a refused block changes nothing.
    pub fn interpolate_block(
        &mut self,
        integrators: &mut [W; 8],
        combs: &mut [W; 64],
        input: &[W],
        out: &mut [W],
    ) -> Result<usize, Refusal>
        ensures { (counted self.new integrators.new combs.new
            ≡ fill_counted W.ops (counted self.old integrators.old combs.old) input.now out.old)
            × (result ≡ block_read (counted self.old integrators.old combs.old).state input.now out.old)
            × (out.new ≡ fill_out W.ops (counted self.old integrators.old combs.old).state input.now out.old) }
    {
        let read = self.numbers().read_block(input.len(), out.len())?;
        let inputs = self.inputs;
        let r = interpolate_run(integrators, combs, *self, input, out);
        *self = r.numbers;
        self.inputs = inputs;
        Ok(read)
    }
}
