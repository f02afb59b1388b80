// The program that makes coefficients for people (document 02, A10): lines from standard input, answers to standard
// output. A line is an adapter's name, a tab and the pole g as the 16 hex digits of its double. It is answered by the
// coefficient's bits in decimal on a line, or by `bad`, line number from 1 and refusal number, and then the program
// stops. `answers_of` of crate coefficient_lines is what it answers to a whole input, worked out in parts.rt; here are the
// reads and the writes. A read or a write that fails ends the program with its error, and nothing further is written.

#![tactic(auto)]

mod answers;
mod parts;

ghost use Rattle.std.specs.Prelude.{◌≡◌, ◌≤◌, ◌<◌, length, IfOk};

use parts::{Place, put_last, take_part};
use std::io;
use std::io::Read;

// The place after a read: whether to read on, and whether the input is over.
#[derive(Drop)]
struct Pumped {
    place: Place,
    more: bool,
    over: bool,
}

// One read, and what it gives out.
fn pump(
    rt: &impl Print,
    input: &mut impl Read,
    p: Place,
    line: &mut [u8],
    buffer: &mut [u8],
    out: &mut [u8],
) -> io::Result<Pumped>
    requires { (p.len ≤ 64) × (length line.old ≡ 64) × (length buffer.old ≤ 4096) × (49188 ≤ length out.old) }
    ensures place { IfOk result (λ pumped. pumped.place.len ≤ 64) }
    ensures line { length line.new ≡ 64 }
{
    let n = input.read(buffer)?;
    if n == 0 {
        return Ok(Pumped {
            place: p,
            more: false,
            over: true,
        });
    }
    let t = take_part(line, p, &buffer[..n], out);
    let w = t.next;
    rt.write_all(&out[..w])?;
    let place = t.place;
    let going = place.going;
    Ok(Pumped {
        place,
        more: going,
        over: false,
    })
}

// The turns that are left: none where there is no more to read.
fn turns_left(turns: u64, more: bool) -> u64
    requires { 0 < turns }
    ensures { result < turns }
{
    if more { turns - 1 } else { 0 }
}

// The whole input, read by read. A proved loop ends, and nothing says that the input does: the turns count down from a
// number that no input uses up.
fn answer_input(
    rt: &impl Print,
    input: &mut impl Read,
    line: &mut [u8],
    buffer: &mut [u8],
    out: &mut [u8],
) -> io::Result<()>
    requires { (length line.old ≡ 64) × (length buffer.old ≤ 4096) × (49188 ≤ length out.old) }
{
    let mut p = Place {
        len: 0,
        lines: 0,
        going: true,
    };
    let mut over = false;
    let mut turns = u64::MAX;
    while 0 < turns {
        let r = pump(rt, input, p, line, buffer, out)?;
        let next = r.place;
        p = next;
        over = r.over;
        turns = turns_left(turns, r.more);
    }
    if !over {
        return Ok(());
    }
    let n = put_last(line, p, out);
    rt.write_all(&out[..n])
}

fn main(rt: HostRuntime) -> io::Result<()> {
    let mut line = [0u8; 64];
    let mut buffer = [0u8; 4096];
    let mut out = [0u8; 49188];
    answer_input(&rt, &mut rt.stdin(), &mut line, &mut buffer, &mut out)
}
