// A part of the input: its whole records taken one after the other, runs of words as blocks.
ghost use Rattle.std.specs.Prelude.{◌≤◌};

use desk::desk::{Desk, Reply, take_record};
use recorder::recorder::Recorder;
use state_lines::put_state;
use text::writing::{put_byte, put_bytes, put_decimal, put_signed64};
use word_runs::runs::gather;
use words::casts::u64_as_u32;
use words::unsigned::{add_u32, add_u64};

// The desk, the place of the next byte of the input, and that of the output.
#[derive(Drop)]
pub struct Advanced {
    pub desk: Desk,
    pub next: usize,
    pub written: usize,
}

// `y`, value, the count told, the number of its word.
fn put_output(out: &mut [u8], at: usize, value: i64, told: usize, number: u64) -> usize {
    let a = put_bytes(out, at, b"y\t");
    let b = put_signed64(out, a, value);
    let c = put_byte(out, b, b'\t');
    let d = put_decimal(out, c, told as u64);
    let e = put_byte(out, d, b'\t');
    let f = put_decimal(out, e, number);
    put_byte(out, f, b'\n')
}

// `bad`, the number of words so far, the number of the refusal.
fn put_bad(out: &mut [u8], at: usize, inputs: u64, number: u32) -> usize {
    let a = put_bytes(out, at, b"bad\t");
    let b = put_decimal(out, a, inputs);
    let c = put_byte(out, b, b'\t');
    let d = put_decimal(out, c, number as u64);
    put_byte(out, d, b'\n')
}

fn put_reply(out: &mut [u8], at: usize, r: Recorder, reply: Reply) -> usize {
    let f = r.filter;
    match reply {
        Reply::Silent => at,
        Reply::Output(y) => put_output(out, at, y.value, y.told, y.number),
        Reply::Saved => put_state(r, out, at),
        Reply::Bad(refusal) => put_bad(out, at, f.inputs, refusal.number()),
    }
}

// The outputs of a block, whose first has this told count and number.
fn put_outputs(
    out: &mut [u8],
    at: usize,
    given: &[i64],
    count: usize,
    told: usize,
    number: u64,
    rate: u32,
) -> usize {
    let step = rate as u64 + 1;
    let mut w = at;
    let mut t = told;
    let mut n = number;
    let mut i: usize = 0;
    let end = at_most(count, given.len());
    while i < end {
        w = put_output(out, w, given[i], t, n);
        t = t.saturating_sub(1);
        n = add_u64(n, step);
        i += 1;
    }
    w
}

// n, but not more than most.
pub fn at_most(n: usize, most: usize) -> usize
    ensures { result ≤ most }
{
    if n < most { n } else { most }
}

// How long the record is that begins with this byte.
fn record_length(first: u8) -> usize {
    if first == b'c' { 1282 } else { 18 }
}

// Whether a desk that goes on has a whole record at a place.
fn ready(going: bool, input: &[u8], at: usize) -> bool {
    if !going {
        return false;
    }
    let n = input.len();
    if n <= at {
        return false;
    }
    record_length(input[at]) <= n - at
}

// The place behind so many lines, which an input of this length has.
fn behind(from: usize, lines: usize, len: usize) -> usize {
    if len / 18 < lines {
        return from;
    }
    let long = 18 * lines;
    if len < long {
        return from;
    }
    if len - long < from {
        return from;
    }
    from + long
}

// A run of words as one block; none where the recorder isn't there or refuses.
fn take_words(
    d: Desk,
    input: &[u8],
    from: usize,
    out: &mut [u8],
    at: usize,
    words: &mut [i32],
    turns: &mut [i64],
    given: &mut [i64],
) -> Advanced {
    let same = Advanced {
        desk: d,
        next: from,
        written: at,
    };
    if !d.opened {
        return same;
    }
    let mut recorder = d.recorder;
    let f = recorder.filter;
    if input.len() < from {
        return same;
    }
    let found = gather(&input[from..], add_u32(u64_as_u32(f.inputs), 1), words);
    let count = at_most(found, words.len());
    if count == 0 {
        return same;
    }
    let Ok(w) = recorder.take(&words[..count], turns, given) else {
        return same;
    };
    let end = put_outputs(out, at, given, w.count, w.told, w.number, f.rate);
    let desk = Desk {
        opened: true,
        going: d.going,
        recorder,
    };
    Advanced {
        desk,
        next: behind(from, count, input.len()),
        written: end,
    }
}

// The record at a place, where there is a whole one.
fn take_next(d: Desk, input: &[u8], from: usize, out: &mut [u8], at: usize) -> Advanced {
    let same = Advanced {
        desk: d,
        next: from,
        written: at,
    };
    let going = d.going;
    if !going {
        return same;
    }
    let n = input.len();
    if n <= from {
        return same;
    }
    let long = record_length(input[from]);
    if n - from < long {
        return same;
    }
    let end = from + long;
    let t = take_record(d, &input[from..end]);
    let desk = t.desk;
    let reply = t.reply;
    let recorder = desk.recorder;
    let written = put_reply(out, at, recorder, reply);
    Advanced {
        desk,
        next: end,
        written,
    }
}

// The whole records of a part of the input; what they give out goes to the front of out, which has 72 bytes for each of the
// part's. The bytes from `next` on are the beginning of a record, to be brought again with what follows.
pub fn run(first: Desk, input: &[u8], out: &mut [u8]) -> Advanced {
    let mut words = [0i32; 512];
    let mut turns = [0i64; 512];
    let mut given = [0i64; 512];
    let mut d = first;
    let mut i: usize = 0;
    let mut w: usize = 0;
    let mut records = input.len();
    while 0 < records {
        let a = take_words(d, input, i, out, w, &mut words, &mut turns, &mut given);
        let da = a.desk;
        let b = take_next(da, input, a.next, out, a.written);
        let db = b.desk;
        d = db;
        i = b.next;
        w = b.written;
        records = if ready(d.going, input, i) {
            records - 1
        } else {
            0
        };
    }
    Advanced {
        desk: d,
        next: i,
        written: w,
    }
}

// The end of the input, where `left` bytes were left: `end` and the number of words, or 77, to the front of out.
pub fn finish(d: Desk, left: usize, out: &mut [u8]) -> usize {
    let going = d.going;
    if !going {
        return 0;
    }
    let r = d.recorder;
    let f = r.filter;
    if left == 0 {
        let a = put_bytes(out, 0, b"end\t");
        let b = put_decimal(out, a, f.inputs);
        return put_byte(out, b, b'\n');
    }
    put_bad(out, 0, f.inputs, 77)
}
