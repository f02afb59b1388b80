// Between a recording and the replay program: samples as its lines, its answer's lines read, its outputs as samples. Callers
// cite `input_lines` of specs/Lines, `line_in` of specs/Answers and `divided_of` of specs/Gain.

#![tactic(auto)]

pub mod answers;

ghost use Rattle.std.specs.Prelude.{◌≡◌, ◌++◌, ◌+◌, ◌*◌, ◌≤◌, length, drop};
ghost use Rattle.blocks.specs.Blocks.{unless};
ghost use Rattle.text.specs.Writing.{Wrote};
ghost use Rattle.wav.specs.Samples.{part_of};
ghost use Rattle.wav_lines.specs.Lines.{input_line, input_lines, lines_number};
ghost use Rattle.wav_lines.specs.Gain.{divided_of};

use blocks::Refusal;
use text::writing::{put_byte, put_bytes, put_signed};

// `x` and a value, at a place where there is room: the next place.
fn put_input(out: &mut [u8], at: usize, x: i32) -> usize
    requires { at + 14 ≤ length out.old }
    ensures { Wrote out.old at (input_line x) result out.new × (result ≤ at + 14) }
{
    let value = put_bytes(out, at, b"x\t");
    let end = put_signed(out, value, x);
    put_byte(out, end, b'\n')
}

// A line for each sample, one behind the other: how many bytes they are.
fn put_inputs(samples: &[i32], out: &mut [u8]) -> usize
    requires { 14 * length samples.now ≤ length out.old }
    ensures { Wrote out.old 0 (input_lines samples.now) result out.new }
{
    let mut at: usize = 0;
    for &x in samples {
        at = put_input(out, at, x);
    }
    at
}

// Writes samples as `x` lines, one each, to the front of out; the rest of out stays. Gives how many bytes they are. Refused with 20,
// nothing written, where out is shorter than 14 bytes a sample, the longest line.
#[tactic(auto, unfolding(crate::specs::Lines::lines_number, blocks::specs::Refusals::answer, blocks::specs::Refusals::refusal_at))]
pub fn write_inputs(samples: &[i32], out: &mut [u8]) -> Result<usize, Refusal>
    ensures { (result ≡ part_of (lines_number samples.now out.old) (length (input_lines samples.now)))
        × (out.new ≡ unless (lines_number samples.now out.old) out.old
        (input_lines samples.now ++ drop (length (input_lines samples.now)) out.old)) }
{
    if out.len() / 14 < samples.len() {
        return Err(Refusal::ShortOutput);
    }
    Ok(put_inputs(samples, out))
}

// Divides a value by 2^k, rounded down, where k counts modulo 64: a sample, if it is within i16. Nothing is clipped: what lies
// outside gives none.
pub fn divide(value: i64, k: u32) -> Option<i32>
    ensures { result ≡ divided_of value k }
{
    let quotient = value.wrapping_shr(k);
    if quotient < -32768 || 32767 < quotient {
        return None;
    }
    Some(quotient as i32)
}
