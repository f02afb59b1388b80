// Runs the table of cases on standard input (document 01, 'The replay program') through the proved replay, whole and
// in parts of every size up to 70 bytes, and prints how many differ.

#![tactic(auto)]

ghost use Rattle.std.specs.Prelude.{◌≤◌, ◌<◌, length};

use playback::driver::{Replay, replay_whole};
use rust_answers::input::read_full;
use rust_answers::lines::report;
use std::io;
use text::comparing::same_bytes;
use text::parts::part_end;

// A place past the end of any slice.
const NOWHERE: usize = usize::MAX;

// The byte that a byte of the table stands for.
fn decoded(b: u8) -> u8 {
    match b {
        b' ' => b'\t',
        b'/' => b'\n',
        b'~' => b' ',
        b'^' => b'\r',
        b'@' => 0,
        b'!' => 255,
        _ => b,
    }
}

// The bytes that a line of the table stands for, to the front of to, as far as they fit: how many.
fn decode(line: &[u8], to: &mut [u8]) -> usize {
    let n = line.len().min(to.len());
    for i in 0..n {
        to[i] = decoded(line[i]);
    }
    n
}

// The place behind the first n bytes of out in want, where they stand at the place; else nowhere.
fn behind(want: &[u8], at: usize, out: &[u8], n: usize) -> usize {
    if out.len() < n {
        return NOWHERE;
    }
    if want.len() < at {
        return NOWHERE;
    }
    if want.len() - at < n {
        return NOWHERE;
    }
    let end = at + n;
    if same_bytes(&want[at..end], &out[..n]) {
        return end;
    }
    NOWHERE
}

// 1 where a place is not the end of want.
fn differs(want: &[u8], at: usize) -> u64 {
    if at == want.len() { 0 } else { 1 }
}

// Where the part that starts at i ends.
fn cut(i: usize, size: usize, n: usize) -> usize
    requires { i < n }
    ensures { (i ≤ result) × (result ≤ n) }
{
    if size < n - i { i + size } else { n }
}

// A replay after some parts, where the next part starts, and the place in the wanted bytes behind what they gave.
#[derive(Clone, Copy)]
struct Parts {
    replay: Replay,
    next: usize,
    at: usize,
}

// The next part of a size; nothing at the end of the input.
fn feed_part(p: &mut Parts, input: &[u8], size: usize, want: &[u8], out: &mut [u8]) {
    let n = input.len();
    let from = p.next;
    if from < n {
        let end = cut(from, size, n);
        let wrote = p.replay.feed(&input[from..end], out);
        p.next = end;
        p.at = behind(want, p.at, out, wrote.unwrap_or(0));
    }
}

// 1 where the input in parts of a size, then its end, gives something else.
fn parts_differ(input: &[u8], size: usize, want: &[u8], out: &mut [u8]) -> u64 {
    let mut p = Parts {
        replay: Replay::start(),
        next: 0,
        at: 0,
    };
    for _ in 0..input.len() {
        feed_part(&mut p, input, size, want, out);
    }
    let wrote = p.replay.finish(out);
    differs(want, behind(want, p.at, out, wrote.unwrap_or(0)))
}

// How many of the sizes up to 70 give something else.
fn sizes_differ(input: &[u8], want: &[u8], out: &mut [u8]) -> u64 {
    let mut differ: u64 = 0;
    for size in 1..71 {
        differ = differ.wrapping_add(parts_differ(input, size, want, out));
    }
    differ
}

// What was counted.
#[derive(Clone, Copy)]
struct Tally {
    cases: u64,
    differ: u64,
    cuts: u64,
    cuts_differ: u64,
}

// A case, whole and in parts.
fn compare_case(input: &[u8], want: &[u8], out: &mut [u8], t: &mut Tally) {
    let wrote = replay_whole(input, out);
    let differ = differs(want, behind(want, 0, out, wrote.unwrap_or(0)));
    let cuts = sizes_differ(input, want, out);
    t.cases = t.cases.wrapping_add(1);
    t.differ = t.differ.wrapping_add(differ);
    t.cuts = t.cuts.wrapping_add(70);
    t.cuts_differ = t.cuts_differ.wrapping_add(cuts);
}

// The case whose input is the first n bytes of a slice, and whose output the first k of another.
fn front_case(input: &[u8], n: usize, want: &[u8], k: usize, out: &mut [u8], t: &mut Tally) {
    if n <= input.len() && k <= want.len() {
        compare_case(&input[..n], &want[..k], out, t);
    }
}

// Where the line that starts at from ends.
fn line_end(table: &[u8], from: usize) -> usize
    requires { from ≤ length table.now }
    ensures { (from ≤ result) × (result ≤ length table.now) }
{
    let end = part_end(table, from, b'\n');
    if table.len() < end {
        return table.len();
    }
    end
}

// The line of the table at from: a comment, or a case's input with what it must give under it; nothing past the end.
// Gives where the next line of the table starts.
fn walk(
    table: &[u8],
    from: usize,
    input: &mut [u8],
    want: &mut [u8],
    out: &mut [u8],
    t: &mut Tally,
) -> usize {
    let n = table.len();
    if n <= from {
        return n;
    }
    let end = line_end(table, from);
    if n <= end {
        return n;
    }
    let below = end + 1;
    if table[from] == b'#' {
        return below;
    }
    let last = line_end(table, below);
    let a = decode(&table[from..end], input);
    let b = decode(&table[below..last], want);
    front_case(input, a, want, b, out, t);
    last + 1
}

// The cases of the table: no more lines than bytes.
fn compare_table(table: &[u8], input: &mut [u8], want: &mut [u8], out: &mut [u8]) -> Tally {
    let mut tally = Tally {
        cases: 0,
        differ: 0,
        cuts: 0,
        cuts_differ: 0,
    };
    let mut next: usize = 0;
    for _ in 0..table.len() {
        next = walk(table, next, input, want, out, &mut tally);
    }
    tally
}

fn main(rt: HostRuntime) -> io::Result<()> {
    let mut table = [0u8; 65536];
    let n = read_full(&mut rt.stdin(), &mut table)?;
    let mut input = [0u8; 4096];
    let mut want = [0u8; 4096];
    let mut out = [0u8; 32768];
    let t = compare_table(&table[..n], &mut input, &mut want, &mut out);
    report(&rt, b"whole", t.cases, t.differ)?;
    report(&rt, b"in parts", t.cuts, t.cuts_differ)?;
    Ok(())
}
