// The driver's turns: a run of `x` lines as one block of the filter, then the bytes up to the end of a line.
ghost use Rattle.std.specs.Prelude.{◌≡◌, ◌&&◌, ◌+◌, ◌≤◌, ◌<◌, eqb, length, take, drop};
ghost use Rattle.playback.specs.Places.{counted_up, given_by, goes_on, end_taken, place_of};
ghost use Rattle.playback.specs.Inner.Advances.{Collects, Answers, Room, Advances, after_block};

use crate::answers::put_reply;
use crate::driver::Replay;
use crate::samples::{gather, put_outputs};
use cic::state::Cic;
use records::parse::Fault;
use records::session::{Reply, Session, Taken, take_line};

// A replay after some bytes, the place of the next byte, and the place behind what was written.
#[derive(Clone, Copy)]
pub struct Advanced {
    pub replay: Replay,
    pub next: usize,
    pub written: usize,
}

// A replay after a line, and the place behind what was written.
#[derive(Clone, Copy)]
pub struct Answered {
    pub replay: Replay,
    pub written: usize,
}

// A line's length so far, and the place of the byte that ends it.
#[derive(Clone, Copy)]
pub struct Collected {
    pub len: usize,
    pub at: usize,
}

// A count raised, no further than 2^64 - 1.
pub(crate) fn count_up(n: u64, by: usize) -> u64
    ensures { result ≡ counted_up n by }
{
    let k = by as u64;
    if n <= 18446744073709551615 - k {
        n + k
    } else {
        18446744073709551615
    }
}

fn goes_on(reply: Reply) -> bool
    ensures { result ≡ goes_on reply }
{
    match reply {
        Reply::Silent => true,
        Reply::Output(_) => true,
        Reply::Bad(_) => false,
    }
}

fn given_by(reply: Reply) -> usize
    ensures { result ≡ given_by reply }
{
    match reply {
        Reply::Silent => 0,
        Reply::Output(_) => 1,
        Reply::Bad(_) => 0,
    }
}

// The bytes of the input that make the line longer: up to a newline, or until it has 64.
fn collect(line: &mut [u8; 64], len: usize, input: &[u8], from: usize) -> Collected
    requires { (len ≤ 64) × (from ≤ length input.now) × (length line.old ≡ 64) }
    ensures { Collects (take len line.old) input.now from
        (take result.len line.new) result.len result.at }
{
    let mut n = len;
    let mut i = from;
    while i < input.len() {
        let b = input[i];
        if b == b'\n' {
            return Collected { len: n, at: i };
        }
        if n == 64 {
            return Collected { len: n, at: i };
        }
        line[n] = b;
        n += 1;
        i += 1;
    }
    Collected { len: n, at: i }
}

// The line that byte b ends: a newline, or the 65th byte.
fn end_line(s: Session, line: &[u8], b: u8) -> Taken
    ensures { result ≡ end_taken s line.now b }
{
    if b == b'\n' {
        return take_line(s, line);
    }
    Taken {
        session: s,
        reply: Reply::Bad(Fault {
            number: 72,
            place: 0,
        }),
    }
}

// The replay after a line that was taken, and its answer.
fn answer_line(r: Replay, t: Taken, out: &mut [u8], at: usize) -> Answered
    requires { at + 44 ≤ length out.old }
    ensures { Answers r t out.old at result.replay result.written out.new }
{
    let session = t.session;
    let reply = t.reply;
    let number = count_up(r.lines, 1);
    let written = put_reply(out, at, number, reply);
    let line = r.line;
    let replay = Replay {
        session,
        lines: number,
        outputs: count_up(r.outputs, given_by(reply)),
        line,
        len: 0,
        going: goes_on(reply),
    };
    Answered { replay, written }
}

// The bytes up to the end of a line, or of the input.
fn take_bytes(r: Replay, input: &[u8], from: usize, out: &mut [u8], at: usize) -> Advanced
    requires { (r.len ≤ 64) × (from ≤ length input.now) × Room (place_of r) (drop from input.now) out.old at }
    ensures { Advances r input.now from out.old at result.replay result.next result.written out.new
        × (from < length input.now → from < result.next) }
{
    let going = r.going;
    if !going {
        return Advanced {
            replay: r,
            next: input.len(),
            written: at,
        };
    }
    let mut line = r.line;
    let f = collect(&mut line, r.len, input, from);
    let n = f.len;
    let i = f.at;
    let session = r.session;
    if input.len() <= i {
        let mut cut = r;
        cut.line = line;
        cut.len = n;
        return Advanced {
            replay: cut,
            next: i,
            written: at,
        };
    }
    let t = end_line(session, &line[..n], input[i]);
    let a = answer_line(r, t, out, at);
    let replay = a.replay;
    Advanced {
        replay,
        next: i + 1,
        written: a.written,
    }
}

// Whether `x` lines may be taken as a block: no refusal, a filter, and no line begun.
fn ready(going: bool, opened: bool, len: usize) -> bool
    ensures { result ≡ (going && (opened && eqb len 0)) }
{
    if !going {
        return false;
    }
    if !opened {
        return false;
    }
    len == 0
}

// The replay after a block of `x` lines: its filter, and so many lines and outputs more.
fn after_block(r: Replay, wide: bool, filter: Cic<i64>, lines: usize, outputs: usize) -> Replay
    ensures { (place_of result ≡ after_block (place_of r) wide filter lines outputs) × (result.len ≡ r.len) }
{
    let session = Session {
        opened: true,
        wide,
        filter,
    };
    let mut next = r;
    next.session = session;
    next.lines = count_up(r.lines, lines);
    next.outputs = count_up(r.outputs, outputs);
    next
}

// Whole `x` lines, as one block of the filter; none where the filter is not there or refuses.
fn take_samples(
    r: Replay,
    input: &[u8],
    from: usize,
    out: &mut [u8],
    at: usize,
    samples: &mut [i64],
    given: &mut [i64],
) -> Advanced
    requires { (r.len ≤ 64) × (from ≤ length input.now) × Room (place_of r) (drop from input.now) out.old at
        × (512 ≤ length samples.old) × (512 ≤ length given.old) }
    ensures { Advances r input.now from out.old at result.replay result.next result.written out.new }
{
    let same = Advanced {
        replay: r,
        next: from,
        written: at,
    };
    let session = r.session;
    if !ready(r.going, session.opened, r.len) {
        return same;
    }
    let g = gather(session.wide, input, from, samples);
    let count = g.count;
    let mut filter = session.filter;
    let Ok(w) = filter.decimate_block(&samples[..count], given) else {
        return same;
    };
    let end = put_outputs(session.wide, out, at, given, w.count, w.told);
    Advanced {
        replay: after_block(r, session.wide, filter, count, w.count),
        next: g.next,
        written: end,
    }
}

// A part of the input, with room for samples and outputs of a block.
pub(crate) fn replay_part(
    first: Replay,
    input: &[u8],
    out: &mut [u8],
    samples: &mut [i64],
    given: &mut [i64],
) -> Advanced
    requires { (first.len ≤ 64) × Room (place_of first) input.now out.old 0 × (512 ≤ length samples.old)
        × (512 ≤ length given.old) }
    ensures { Advances first input.now 0 out.old 0 result.replay result.next result.written out.new
        × (result.next ≡ length input.now) }
{
    let mut r = first;
    let mut i: usize = 0;
    let mut w: usize = 0;
    while i < input.len() {
        let a = take_samples(r, input, i, out, w, samples, given);
        let ra = a.replay;
        let b = take_bytes(ra, input, a.next, out, a.written);
        let rb = b.replay;
        r = rb;
        i = b.next;
        w = b.written;
    }
    Advanced {
        replay: r,
        next: i,
        written: w,
    }
}
