// What refuses a record: 83, 82, and then the parameter numbers.
ghost use Rattle.std.specs.Prelude.{map, ◌≡◌, ◌&&◌, leb, cond};
ghost use Rattle.std.specs.Int.{w32};
ghost use Rattle.blocks.specs.Refusals.{answer};
ghost use Rattle.sums.specs.Calls.{new_number};
ghost use Rattle.words.specs.Words.{wrap};
ghost use Rattle.settings_text.specs.Lines.{cic_number, wdf_number, crossed, dither_number};
ghost use Rattle.entries.specs.Entries.{name_bytes, kind_number, number_for};

use crate::settings::{Entry, Kind, Name};
use blocks::Refusal;
use settings_text::version::Version;
use shape::numbers::Numbers;
use text::comparing::comes_before;
use wdf::filter::{new_refusal, refusal};

// What `Cic::new` is refused with.
fn check_new(order: u32, delay: u32, rate: u32) -> Result<(), Refusal>
    ensures { result ≡ answer (new_number order delay rate) tt }
{
    let shape = Numbers {
        order: order as usize,
        delay: delay as usize,
        rate,
        countdown: 0,
        unsettled: 0,
    };
    shape.check()
}

// 12: R outside 1..65,536.
#[tactic(auto, unfolding(blocks::specs::Refusals::answer, blocks::specs::Refusals::refusal_at))]
fn check_factor(r: u32) -> Result<(), Refusal>
    ensures { result ≡ answer (cond (leb 1 r && leb r 65536) 0 12) tt }
{
    if (1..=65536).contains(&r) {
        Ok(())
    } else {
        Err(Refusal::Rate)
    }
}

// What `Cic::new` is refused with; in form 2 with 12 for R outside 1..65,536.
#[tactic(auto, using(crate::proofs::Numbering::refused_first, crate::proofs::Numbering::taken_first))]
fn check_cic(version: Version, order: u32, delay: u32, rate: u32) -> Result<(), Refusal>
    ensures { result ≡ answer (cic_number version order delay rate) tt }
{
    match version {
        Version::One => check_new(order, delay, rate),
        Version::Two => {
            check_new(order, delay, 0)?;
            check_factor(rate)
        }
    }
}

// What `Wdf::from_form1` is refused with; in form 2 what `Wdf::new` is, with 53 for B1 and C1.
fn check_wdf(version: Version, sections: usize, architecture: u32) -> Result<(), Refusal>
    ensures { result ≡ answer (wdf_number version sections architecture) tt }
{
    match version {
        Version::One => refusal(sections, architecture),
        Version::Two => new_refusal(sections, architecture),
    }
}

// Whether a `dither`'s lower limit is above its upper one.
fn limits_cross(a: &[i32; 8]) -> bool
    ensures { result ≡ crossed (map (wrap w32) a.now) }
{
    a[7] < a[6]
}

// 40: F outside 1..31; 41: lower limit above upper.
#[tactic(auto, unfolding(blocks::specs::Refusals::answer, blocks::specs::Refusals::refusal_at, settings_text::specs::Lines::dither_number))]
fn check_dither(f: u32, a: &[i32; 8]) -> Result<(), Refusal>
    ensures { result ≡ answer (dither_number f (map (wrap w32) a.now)) tt }
{
    if f < 1 || 31 < f {
        return Err(Refusal::FractionBits);
    }
    if limits_cross(a) {
        return Err(Refusal::Limits);
    }
    Ok(())
}

// The parameter numbers: what the filter is refused with.
fn check_kind(version: Version, kind: Kind, a: &[i32; 8]) -> Result<(), Refusal>
    ensures { result ≡ answer (kind_number version kind (map (wrap w32) a.now)) tt }
{
    match kind {
        Kind::Cic(order, delay, rate) => check_cic(version, order, delay, rate),
        Kind::Wdf(sections, architecture) => check_wdf(version, sections, architecture),
        Kind::Dither(f) => check_dither(f, a),
    }
}

impl Name {
    // Its bytes, at most 16.
    pub fn letters(&self) -> &[u8]
        ensures { result.now ≡ name_bytes self.now }
    {
        &self.bytes[..self.len.min(16)]
    }
}

impl Entry {
    // What refuses a well-formed record after k records, the last of them named `last`.
    #[tactic(auto, unfolding(blocks::specs::Refusals::answer, blocks::specs::Refusals::refusal_at, crate::specs::Entries::number_for))]
    pub fn check(&self, version: Version, k: usize, last: &Name) -> Result<(), Refusal>
        ensures { result ≡ answer (number_for version k (name_bytes last.now) (name_bytes self.now.name) self.now.kind (map (wrap w32) self.now.a)) tt }
    {
        if 64 <= k {
            return Err(Refusal::ManySettings);
        }
        if !comes_before(last.letters(), self.name.letters()) {
            return Err(Refusal::Names);
        }
        check_kind(version, self.kind, &self.a)
    }
}
