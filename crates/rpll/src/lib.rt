// The reciprocal phase-locked loop: from the timestamps of a reference, the phase and frequency of its own steps
// against that reference, 2^32 to a turn. Port of the crate's rpll.rs. Callers cite specs/Loops.

#![tactic(auto)]

ghost use Rattle.std.specs.Prelude.{◌≡◌, ◌+◌, ◌<◌, ◌≤◌};
ghost use Rattle.blocks.specs.Refusals.{answer};
ghost use Rattle.rpll.specs.Loops.{config_number, locked_of, error_of, advanced_of, taken_of, updated_of};
ghost use Rattle.rpll.specs.Loops.{estimate_of, processed_of};
ghost use Rattle.rpll.specs.Blocks.{LoopBlocked};

use blocks::Refusal;

#[derive(Clone, Copy, Debug, PartialEq, Eq)]
pub struct RPLL {
    // The previous timestamp.
    pub x: i32,
    // The frequency by the frequency loop alone.
    pub ff: u32,
    // The frequency by both loops.
    pub f: u32,
    // The phase.
    pub y: i32,
}

#[derive(Clone, Copy, Debug, PartialEq, Eq)]
pub struct RPLLConfig {
    // A step lasts 2^dt2 counter cycles.
    pub dt2: u8,
    // The frequency loop settles in 2^shift_frequency counter cycles, which are to be more than the reference's
    // period.
    pub shift_frequency: u8,
    // The phase loop settles in 2^shift_phase counter cycles, usually half as many.
    pub shift_phase: u8,
}

// The phase and the frequency after a step, the latter read as signed.
#[derive(Clone, Copy, Debug, PartialEq, Eq)]
pub struct Estimate {
    pub phase: i32,
    pub frequency: i32,
}

// The frequency loop: ff corrected by what its phase over dx counter cycles lacks to the reference's 2^dt2 turns.
// Both phases are taken over 2^shift, the signal's rounded to the nearest, a half upwards.
fn frequency_lock(ff: u32, dx: i32, dt2: u32, shift: u32) -> u32
    requires { (dt2 < shift) × (shift ≤ 32) }
    ensures { result ≡ locked_of ff dx dt2 shift }
{
    let turned = u64::from(ff).wrapping_mul(i64::from(dx).cast_unsigned());
    let rounded = turned.wrapping_add(1 << (shift - 1)) >> shift;
    let p_sig = (rounded % 0x1_0000_0000) as u32;
    let p_ref = 1u32 << (32 + dt2 - shift);
    ff.wrapping_add(p_ref.wrapping_sub(p_sig))
}

// The phase loop: what the phase y lacks to the reference's now, by the timestamp x and the frequency f,
// over 2^(shift - dt2).
fn phase_error(f: u32, x: i32, y: i32, dt2: u32, shift: u32) -> i32
    requires { (dt2 ≤ 30) × (dt2 ≤ shift) × (shift ≤ dt2 + 31) }
    ensures { result ≡ error_of f x y dt2 shift }
{
    let dt = x.wrapping_neg().cast_unsigned() % (1 << dt2);
    let y_ref = (f >> dt2).wrapping_mul(dt).cast_signed();
    y_ref.wrapping_sub(y) >> (shift - dt2)
}

impl RPLL {
    // Advances the phase by a step at the current frequency; all else stays.
    fn advance(&mut self)
        ensures { self.new ≡ advanced_of self.old }
    {
        self.y = self.y.wrapping_add(self.f.cast_signed());
    }

    // The current phase.
    pub fn phase(self) -> i32
        ensures { result ≡ self.y }
    {
        self.y
    }

    // The current frequency.
    pub fn frequency(self) -> u32
        ensures { result ≡ self.f }
    {
        self.f
    }

    #[tactic(auto, using(words::proofs::Std::casts))]
    fn estimate(self) -> Estimate
        ensures { result ≡ estimate_of self }
    {
        Estimate {
            phase: self.y,
            frequency: self.f.cast_signed(),
        }
    }
}

impl RPLLConfig {
    // The first refusal that concerns the configuration: Dt2 where dt2 is above 30, ShiftFrequency where shift_frequency
    // is outside dt2 + 1 .. 32, ShiftPhase where shift_phase is outside dt2 .. dt2 + 31.
    #[tactic(auto, unfolding(blocks::specs::Refusals::answer, blocks::specs::Refusals::refusal_at, crate::specs::Loops::config_number))]
    fn accepted(self) -> Result<(), Refusal>
        ensures { result ≡ answer (config_number self) tt }
    {
        if self.dt2 > 30 {
            return Err(Refusal::Dt2);
        }
        if self.shift_frequency <= self.dt2 || self.shift_frequency > 32 {
            return Err(Refusal::ShiftFrequency);
        }
        if self.shift_phase < self.dt2 || self.shift_phase > self.dt2 + 31 {
            return Err(Refusal::ShiftPhase);
        }
        Ok(())
    }

    // Both loops at the timestamp x, which is kept; the phase stays.
    fn take(self, s: &mut RPLL, x: i32)
        requires { config_number self ≡ 0 }
        ensures { s.new ≡ taken_of self s.old x }
    {
        let dt2 = u32::from(self.dt2);
        let dx = x.wrapping_sub(s.x);
        let ff = frequency_lock(s.ff, dx, dt2, u32::from(self.shift_frequency));
        let dy = phase_error(s.f, x, s.y, dt2, u32::from(self.shift_phase));
        s.x = x;
        s.ff = ff;
        s.f = ff.wrapping_add(dy.cast_unsigned());
    }

    // A step, with a timestamp or without.
    fn update(self, s: &mut RPLL, x: Option<i32>)
        requires { config_number self ≡ 0 }
        ensures { s.new ≡ updated_of self s.old x }
    {
        s.advance();
        if let Some(x) = x {
            self.take(s, x);
        }
    }

    // Advances the loop by a step and takes a timestamp, in counter cycles, where there is one. At most one comes in a step.
    // Dt2, ShiftFrequency or ShiftPhase where the configuration is out of range: the state stays as it was.
    pub fn process(self, state: &mut RPLL, x: Option<i32>) -> Result<Estimate, Refusal>
        ensures { (result ≡ (processed_of self state.old x).estimate) × (state.new ≡ (processed_of self state.old x).state) }
    {
        self.accepted()?;
        self.update(state, x);
        Ok(state.estimate())
    }

    // Takes the steps in turn, step i with the timestamp xs[i] where there[i], else without, and writes the phases and
    // the frequencies, the latter read as signed. Lengths where the slices differ in length, else the configuration's
    // refusal: nothing changes.
    // Kept: flags, timestamps and both outputs are slices of their own, as C lends them.
    pub fn block(
        self,
        state: &mut RPLL,
        there: &[bool],
        xs: &[i32],
        ys: &mut [i32],
        fs: &mut [i32],
    ) -> Result<(), Refusal>
        ensures { LoopBlocked self state.old there.now xs.now ys.old fs.old state.new result ys.new fs.new }
    {
        if there.len() != xs.len() || xs.len() != ys.len() || ys.len() != fs.len() {
            return Err(Refusal::Lengths);
        }
        self.accepted()?;
        for (i, &x) in xs.iter().enumerate() {
            self.update(state, there[i].then_some(x));
            let now = state.estimate();
            ys[i] = now.phase;
            fs[i] = now.frequency;
        }
        Ok(())
    }
}
