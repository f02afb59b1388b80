// A replay fed in parts: whatever the cuts, the parts and the end together give what the whole input gives.
ghost use Rattle.std.specs.Prelude.{◌≡◌, true, ◌++◌, ◌+◌, ◌*◌, ◌-◌, ◌≤◌, ltb, length, take, replicate};
ghost use Rattle.text.specs.Writing.{Wrote};
ghost use Rattle.playback.specs.Replays.{replay};
ghost use Rattle.playback.specs.Places.{start, place_of, replay_of, finish_bytes, answer_number, feed_number, Writes, PartFed};

use crate::answers::{put_bad, put_end};
use crate::turns::{count_up, replay_part};
use blocks::Refusal;
use cic::state::Cic;
use records::session::Session;

// What a replay keeps from one part of its input to the next: its filter, the lines and outputs so far, the first len
// bytes of `line` that came of the next line, and whether no refusal has stopped it.
#[derive(Clone, Copy)]
pub struct Replay {
    pub session: Session,
    pub lines: u64,
    pub outputs: u64,
    pub line: [u8; 64],
    pub len: usize,
    pub going: bool,
}

// The first len bytes of line, and then zeros.
fn padded(line: [u8; 64], len: usize) -> [u8; 64]
    requires { len ≤ 64 }
    ensures { result ≡ take len line ++ replicate (64 - len) 0 }
{
    let mut a = line;
    let mut i = len;
    while i < 64 {
        a[i] = 0;
        i += 1;
    }
    a
}

// Whether a part of n bytes may need more than len bytes of output.
fn short_of(len: usize, n: usize) -> bool
    ensures { result ≡ ltb len (7 * n + 492) }
{
    if len < 492 {
        return true;
    }
    (len - 492) / 7 < n
}

// What the end of the input gives out.
fn put_finish(r: Replay, out: &mut [u8], at: usize) -> usize
    requires { r.going ≡ true → at + 40 ≤ length out.old }
    ensures { Wrote out.old at (finish_bytes (place_of r)) result out.new }
{
    let going = r.going;
    if !going {
        return at;
    }
    if r.len == 0 {
        return put_end(out, at, r.outputs);
    }
    put_bad(out, at, count_up(r.lines, 1), 77, 0)
}

impl Replay {
    // A replay before its first byte.
    pub fn start() -> Replay
        ensures { result ≡ replay_of start }
    {
        let session = Session {
            opened: false,
            wide: false,
            filter: Cic::blank(),
        };
        let line = [0u8; 64];
        Replay {
            session,
            lines: 0,
            outputs: 0,
            line,
            len: 0,
            going: true,
        }
    }

    // A part of the input, of any length and cut anywhere: what it gives out goes to the front of out, and the rest of
    // out stays. Gives how many bytes that is. Refused with 20 where out is shorter than 7 bytes for each of the part's and 492 more; a refused part
    // changes nothing.
    pub fn feed(&mut self, input: &[u8], out: &mut [u8]) -> Result<usize, Refusal>
        ensures { PartFed self.old input.now out.old result self.new out.new }
    {
        if short_of(out.len(), input.len()) {
            return Err(Refusal::ShortOutput);
        }
        let first = self.clipped();
        let mut samples = [0i64; 512];
        let mut given = [0i64; 512];
        let t = replay_part(first, input, out, &mut samples, &mut given);
        let last = t.replay;
        *self = last.tidied();
        Ok(t.written)
    }

    // The end of the input: `end` and the count of outputs, or a refusal, goes to the front of out, and the rest of out
    // stays. Refused with 20, nothing written, where out is shorter than 44 bytes.
    pub fn finish(self, out: &mut [u8]) -> Result<usize, Refusal>
        ensures { Writes (answer_number out.old) (finish_bytes (place_of self)) out.old result out.new }
    {
        if out.len() < 44 {
            return Err(Refusal::ShortOutput);
        }
        let n = put_finish(self, out, 0);
        Ok(n)
    }

    // The same place, of whose line no more than 64 bytes are said to be there.
    fn clipped(self) -> Replay
        ensures { (place_of result ≡ place_of self) × (result.len ≤ 64) }
    {
        let mut r = self;
        if 64 < self.len {
            r.len = 64;
        }
        r
    }

    // The same place, with zeros behind its line.
    fn tidied(self) -> Replay
        requires { self.len ≤ 64 }
        ensures { result ≡ replay_of (place_of self) }
    {
        let session = self.session;
        let old = self.line;
        let line = padded(old, self.len);
        Replay {
            session,
            lines: self.lines,
            outputs: self.outputs,
            line,
            len: self.len,
            going: self.going,
        }
    }
}

// The replay of an input that is there as a whole, to the front of out; the rest of out stays. Refused with 20, nothing
// written, where out is shorter than 7 bytes for each of the input's and 492 more.
pub fn replay_whole(input: &[u8], out: &mut [u8]) -> Result<usize, Refusal>
    ensures { Writes (feed_number input.now out.old) (replay input.now) out.old result
        out.new }
{
    if short_of(out.len(), input.len()) {
        return Err(Refusal::ShortOutput);
    }
    let first = Replay::start();
    let mut samples = [0i64; 512];
    let mut given = [0i64; 512];
    let t = replay_part(first, input, out, &mut samples, &mut given);
    let last = t.replay;
    let n = put_finish(last, out, t.written);
    Ok(n)
}
