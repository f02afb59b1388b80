// The recorder's program: records from standard input, answers to standard output (docs/RECORDER.md). What it works out is the
// libraries' (crates/recorder, crates/desk); here are runs of words as blocks, the answers' text, the reads and the writes. What a read brings is answered before the next read.
// A read or a write that fails ends the program with its error, and nothing further is written.

#![tactic(auto)]

mod parts;

ghost use Rattle.std.specs.Prelude.{◌<◌};

use crate::parts::{at_most, finish, run};
use desk::desk::Desk;
use std::io;
use std::io::Read;
use text::writing::put_bytes;

// A desk after a read: how many bytes of a record are left in the buffer, whether to read on, and whether the input is over.
#[derive(Drop)]
struct Pumped {
    desk: Desk,
    left: usize,
    more: bool,
    over: bool,
}

// The bytes from..to moved to the front.
fn to_front(buffer: &mut [u8], from: usize, to: usize) {
    let end = at_most(to, buffer.len());
    let mut i = from;
    let mut k: usize = 0;
    while i < end {
        buffer[k] = buffer[i];
        i += 1;
        k += 1;
    }
}

// What a part gives out, written: the desk after it, the place of the first byte that is left, and whether to go on.
#[derive(Drop)]
struct Answered {
    desk: Desk,
    next: usize,
    more: bool,
}

fn answer(rt: &impl Print, d: Desk, part: &[u8], out: &mut [u8]) -> io::Result<Answered> {
    let r = run(d, part, out);
    let w = at_most(r.written, out.len());
    rt.write_all(&out[..w])?;
    let desk = r.desk;
    let going = desk.going;
    Ok(Answered {
        desk,
        next: r.next,
        more: going,
    })
}

// A part that was read, with nothing left from before. What is left of it goes to the front of `held`.
fn take_fresh(
    rt: &impl Print,
    d: Desk,
    part: &[u8],
    held: &mut [u8],
    out: &mut [u8],
) -> io::Result<Pumped> {
    let n = part.len();
    let a = answer(rt, d, part, out)?;
    let from = at_most(a.next, n);
    let left = put_bytes(held, 0, &part[from..n]);
    let desk = a.desk;
    Ok(Pumped {
        desk,
        left,
        more: a.more,
        over: false,
    })
}

// A part that was read, put behind the bytes that are left in `held`.
fn take_behind(
    rt: &impl Print,
    d: Desk,
    part: &[u8],
    held: &mut [u8],
    left: usize,
    out: &mut [u8],
) -> io::Result<Pumped> {
    let put = put_bytes(held, left, part);
    let have = at_most(put, held.len());
    let a = answer(rt, d, &held[..have], out)?;
    let from = at_most(a.next, have);
    to_front(held, from, have);
    let desk = a.desk;
    Ok(Pumped {
        desk,
        left: have - from,
        more: a.more,
        over: false,
    })
}

// One read, and what it gives out.
fn pump(
    rt: &impl Print,
    input: &mut impl Read,
    d: Desk,
    fresh: &mut [u8],
    held: &mut [u8],
    left: usize,
    out: &mut [u8],
) -> io::Result<Pumped> {
    let n = input.read(fresh)?;
    if n == 0 {
        return Ok(Pumped {
            desk: d,
            left,
            more: false,
            over: true,
        });
    }
    if left == 0 {
        return take_fresh(rt, d, &fresh[..n], held, out);
    }
    take_behind(rt, d, &fresh[..n], held, left, out)
}

// The turns that are left: none where there is no more to read.
fn turns_left(turns: u64, more: bool) -> u64
    requires { 0 < turns }
    ensures { result < turns }
{
    if more { turns - 1 } else { 0 }
}

// The whole input, read by read. A proved loop ends, and nothing says that the input does: the turns count down from a
// number that no input uses up.
fn record_input(
    rt: &impl Print,
    input: &mut impl Read,
    fresh: &mut [u8],
    held: &mut [u8],
    out: &mut [u8],
) -> io::Result<()> {
    let mut d = Desk::start();
    let mut left: usize = 0;
    let mut over = false;
    let mut turns = u64::MAX;
    while 0 < turns {
        let p = pump(rt, input, d, fresh, held, left, out)?;
        let next = p.desk;
        d = next;
        left = p.left;
        over = p.over;
        turns = turns_left(turns, p.more);
    }
    if !over {
        return Ok(());
    }
    let n = at_most(finish(d, left, out), out.len());
    rt.write_all(&out[..n])
}

// The room for what a read gives out, as a slice. Here the prover has its length from its type; in `main` it would count its zeros.
fn whole(room: &mut [u8; 589824]) -> &mut [u8] {
    room
}

fn main(rt: HostRuntime) -> io::Result<()> {
    let mut fresh = [0u8; 6138];
    let mut held = [0u8; 8192];
    let mut out = [0u8; 589824];
    record_input(&rt, &mut rt.stdin(), &mut fresh, &mut held, whole(&mut out))
}
