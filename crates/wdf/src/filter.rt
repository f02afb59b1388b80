// The filter: an input goes through the sections in order.
ghost use Rattle.std.specs.Prelude.{◌≡◌, ◌%◌, ◌≤◌};
ghost use Rattle.blocks.specs.Blocks.{Blocked};
ghost use Rattle.adapters.specs.Adapters.{adapted, code_of};
ghost use Rattle.wdf.specs.Calls.{sections_number, holds_retired, new_number, number, filter, none, told};
ghost use Rattle.wdf.specs.Calls.{answer, next, Makes, Steps};
ghost use Rattle.wdf.specs.Retired.{current, moved};
ghost use Rattle.wdf.specs.Lent.{Passes};

use adapters::tpa::{Ports, Tpa};
use blocks::Refusal;
use sections::runs::{run_eight, run_two};

// A filter. Coefficients and cells beyond its sections are kept and never matter.
#[derive(Clone, Copy, Debug, PartialEq, Eq)]
pub struct Wdf {
    // How many sections there are, up to 8.
    pub sections: usize,
    // A nibble for each section, the first one lowest, and no other.
    pub architecture: u32,
    // The coefficients, in units of 2^-32.
    pub a: [i32; 8],
    // The cells.
    pub z: [i32; 8],
}

// The first test that a filter fails: `Sections` where it has more than 8 sections, `Adapters` where a nibble beyond the last is not
// zero.
pub fn refusal(sections: usize, architecture: u32) -> Result<(), Refusal>
    ensures { result ≡ told (sections_number sections architecture) }
{
    if 8 < sections {
        return Err(Refusal::Sections);
    }
    if architecture as u64 >> (4 * sections) != 0 {
        return Err(Refusal::Adapters);
    }
    Ok(())
}

// Whether a section's adapter is B1 or C1.
fn has_retired(sections: usize, architecture: u32) -> bool
    ensures { result ≡ holds_retired sections architecture }
{
    let mut left = architecture;
    for _ in 0..sections {
        if Tpa::from((left % 16) as u8).is_retired() {
            return true;
        }
        left /= 16;
    }
    false
}

// The first test that a new filter fails: as above, then `RetiredAdapter` where a section's adapter is B1 or C1.
pub fn new_refusal(sections: usize, architecture: u32) -> Result<(), Refusal>
    ensures { result ≡ told (new_number sections architecture) }
{
    refusal(sections, architecture)?;
    if has_retired(sections, architecture) {
        return Err(Refusal::RetiredAdapter);
    }
    Ok(())
}

// The nibble in this one's place: b for e, c for f.
#[tactic(auto, unfolding(crate::specs::Retired::current))]
fn current_nibble(nibble: u32) -> u32
    ensures { result ≡ current nibble }
{
    match nibble {
        0xe => 0xb,
        0xf => 0xc,
        _ => nibble,
    }
}

// The architecture with b in the place of each section's e and c in the place of each f, from the last section down.
fn moved_architecture(sections: usize, architecture: u32) -> u32
    requires { sections ≤ 8 }
    ensures { result ≡ moved sections architecture }
{
    let mut made = (architecture as u64 >> (4 * sections)) as u32;
    for done in 0..sections {
        let nibble = (architecture as u64 >> (4 * (sections - done - 1))) % 16;
        made = 16 * made + current_nibble(nibble as u32);
    }
    made
}

// The architecture with b in the place of each section's e and c in the place of each f: a filter so moved gives the same outputs and
// cells, and holds no retired adapter.
pub fn current_architecture(sections: usize, architecture: u32) -> u32
    ensures { result ≡ moved sections architecture }
{
    moved_architecture(sections.min(8), architecture)
}

// The outputs of the section whose nibble is the lowest, for the input x, its cell and its coefficient.
fn section(nibbles: u32, x: i32, cell: i32, coefficient: i32) -> Ports
    ensures { result ≡ adapted (code_of (nibbles % 16)) x cell coefficient }
{
    Tpa::from((nibbles % 16) as u8).adapt(x, cell, coefficient)
}

// One input through the sections: the answer comes back, and the cells of the sections are made anew.
fn pass(sections: usize, architecture: u32, a: &[i32; 8], z: &mut [i32; 8], x: i32) -> i32
    requires { sections ≤ 8 }
    ensures { Passes (filter sections architecture a.now z.old) x result z.new }
{
    if sections == 0 {
        return x;
    }
    let last = sections - 1;
    let head = section(architecture, x, z[0], a[0]);
    let mut going = head.1;
    let mut left = architecture / 16;
    for i in 0..last {
        let p = section(left, going, z[i + 1], a[i + 1]);
        z[i] = p.0;
        going = p.1;
        left /= 16;
    }
    z[last] = going;
    head.0
}

impl Wdf {
    // No sections, and all numbers zero: it gives each input back.
    pub const EMPTY: Wdf = Wdf {
        sections: 0,
        architecture: 0,
        a: [0; 8],
        z: [0; 8],
    };

    // A filter of these sections, with all eight coefficients as given and cells of zero.
    // `Sections` where there are more than 8, `Adapters` where a nibble beyond the last is not zero, `RetiredAdapter` where a section's
    // adapter is B1 or C1; what stands for the filter is then `EMPTY`.
    pub fn new(sections: usize, architecture: u32, a: [i32; 8]) -> Result<Self, Refusal>
        ensures { Makes (new_number sections architecture) sections architecture a result }
    {
        new_refusal(sections, architecture)?;
        Ok(Wdf {
            sections,
            architecture,
            a,
            z: [0; 8],
        })
    }

    // The same of the settings of form 1, which may hold B1 and C1: `Sections` and `Adapters` alone.
    pub fn from_form1(sections: usize, architecture: u32, a: [i32; 8]) -> Result<Self, Refusal>
        ensures { Makes (sections_number sections architecture) sections architecture a result }
    {
        refusal(sections, architecture)?;
        Ok(Wdf {
            sections,
            architecture,
            a,
            z: [0; 8],
        })
    }

    // Takes the input x: the output, and the cells of the sections are made anew.
    // A refused step, `Sections` or `Adapters`, changes nothing.
    pub fn process(&mut self, x: i32) -> Result<i32, Refusal>
        ensures { Steps self.old x self.new result }
    {
        refusal(self.sections, self.architecture)?;
        Ok(pass(self.sections, self.architecture, &self.a, &mut self.z, x))
    }

    // Takes the inputs in turn and writes their outputs. A nibble beyond the sections is zero, and a section of it leaves all as it is:
    // so one or two sections run as two, more as eight.
    // `Lengths` where the slices differ in length, then `Sections` and `Adapters`: nothing is written or changed.
    pub fn block(&mut self, xs: &[i32], ys: &mut [i32]) -> Result<(), Refusal>
        ensures { Blocked (number self.old) answer next self.old xs.now ys.old
            self.new result ys.new }
    {
        if xs.len() != ys.len() {
            return Err(Refusal::Lengths);
        }
        refusal(self.sections, self.architecture)?;
        if self.sections <= 2 {
            run_two(self.architecture, &self.a, &mut self.z, xs, ys)
        } else {
            run_eight(self.architecture, &self.a, &mut self.z, xs, ys)
        }
    }
}

// Nothing calls it: its promise says what the constant `EMPTY` is.
fn empty() -> Wdf
    ensures { result ≡ none }
{
    Wdf::EMPTY
}
