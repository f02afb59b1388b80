// A part of the input, byte by byte, and what it gives out.
ghost use Rattle.std.specs.Prelude.{◌≡◌, true, ◌+◌, ◌*◌, ◌≤◌, length};
ghost use Rattle.text.specs.Writing.{Wrote};
ghost use Rattle.coefficient_lines.specs.Lines.{answer_bytes};
ghost use Rattle.coefficient_lines.specs.Parts.{
  one_more,
  is_accepted,
  byte_after,
  byte_given,
  part_after,
  part_given,
  last_given,
};
ghost use Rattle.coefficients.specs.Places.{standing_of};

use crate::answers::{line_bits, put_answer};
use blocks::Refusal;

// Where the input stands: the length of the line so far, how many lines came before it, and whether to go on.
#[derive(Clone, Copy)]
pub struct Place {
    pub len: usize,
    pub lines: u64,
    pub going: bool,
}

// The place after some bytes, and the place behind what was written.
#[derive(Clone, Copy)]
pub struct Taken {
    pub place: Place,
    pub next: usize,
}

// One more, no further than 2^64 - 1.
fn count_up(n: u64) -> u64
    ensures { result ≡ one_more n }
{
    n.saturating_add(1)
}

// The place after a line that was answered so, and its answer.
fn end_line(lines: u64, answer: Result<i32, Refusal>, out: &mut [u8], at: usize) -> Taken
    requires { at + 36 ≤ length out.old }
    ensures { (result.place ≡ (record { len = 0; lines = one_more lines; going = is_accepted answer }))
        × Wrote out.old at (answer_bytes (one_more lines) answer) result.next out.new
        × (result.next ≤ at + 36) × (is_accepted answer ≡ true → result.next ≤ at + 12) }
{
    let number = count_up(lines);
    let next = put_answer(out, at, number, answer);
    Taken {
        place: Place {
            len: 0,
            lines: number,
            going: answer.is_ok(),
        },
        next,
    }
}

// The place after a byte: a newline ends the line, and so does its 65th byte, which is refused.
fn take_byte(line: &mut [u8], p: Place, b: u8, out: &mut [u8], at: usize) -> Taken
    requires { (p.len ≤ 64) × (length line.old ≡ 64) × (at + 36 ≤ length out.old) }
    ensures { (standing_of result.place line.new ≡ byte_after (standing_of p line.old) b)
        × Wrote out.old at (byte_given (standing_of p line.old) b) result.next out.new
        × (result.place.len ≤ 64) × (length line.new ≡ 64)
        × (result.next ≤ at + 36) × (result.place.going ≡ true → result.next ≤ at + 12) }
{
    let len = p.len;
    let lines = p.lines;
    if b == b'\n' {
        let answer = line_bits(&line[..len]);
        return end_line(lines, answer, out, at);
    }
    if len == 64 {
        return end_line(lines, Err(Refusal::LongLine), out, at);
    }
    line[len] = b;
    Taken {
        place: Place {
            len: len + 1,
            lines,
            going: true,
        },
        next: at,
    }
}

// The place after a part of the input, and what it gives out, at the front of out.
pub(crate) fn take_part(line: &mut [u8], first: Place, part: &[u8], out: &mut [u8]) -> Taken
    requires { (first.len ≤ 64) × (length line.old ≡ 64)
        × (12 * length part.now + 36 ≤ length out.old) }
    ensures { (standing_of result.place line.new ≡ part_after (standing_of first line.old) part.now)
        × Wrote out.old 0 (part_given (standing_of first line.old) part.now) result.next out.new
        × (result.place.len ≤ 64) × (length line.new ≡ 64) × (result.next ≤ length out.new) }
{
    if !first.going {
        return Taken {
            place: first,
            next: 0,
        };
    }
    let mut p = first;
    let mut at: usize = 0;
    let mut i: usize = 0;
    while i < part.len() {
        let t = take_byte(line, p, part[i], out, at);
        let next = t.place;
        p = next;
        at = t.next;
        if !next.going {
            return Taken { place: p, next: at };
        }
        i += 1;
    }
    Taken { place: p, next: at }
}

// What is given out at the end of the input: an unterminated last line is refused.
pub(crate) fn put_last(line: &[u8], p: Place, out: &mut [u8]) -> usize
    requires { (p.len ≤ length line.now) × (36 ≤ length out.old) }
    ensures { Wrote out.old 0 (last_given (standing_of p line.now)) result out.new
        × (result ≤ length out.new) }
{
    if !p.going {
        return 0;
    }
    if p.len == 0 {
        return 0;
    }
    let number = count_up(p.lines);
    put_answer(out, 0, number, Err(Refusal::Unterminated))
}
