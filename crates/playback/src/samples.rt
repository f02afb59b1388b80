// Runs of `x` lines: their samples gathered for one block of the filter, and the block's outputs written.
ghost use Rattle.std.specs.Prelude.{◌+◌, ◌-◌, ◌*◌, ◌≤◌, length, take};
ghost use Rattle.text.specs.Writing.{Wrote};
ghost use Rattle.playback.specs.Replays.{output_line};
ghost use Rattle.playback.specs.Inner.Advances.{finds, Gathers, output_lines};

use crate::answers::{put_output, put_settled};
use records::parse::integer_of;
use records::session::read_in;
use text::numbers::parsed;
use text::parts::part_end;

// A whole line that is a sample within the word: its value, and where the next line starts.
#[derive(Clone, Copy)]
pub enum Found {
    Sample(i64, usize),
    Other,
}

// How many samples were gathered, and where the next line starts.
#[derive(Clone, Copy)]
pub struct Gathered {
    pub count: usize,
    pub next: usize,
}

fn sample_at(wide: bool, input: &[u8], at: usize) -> Found
    requires { at ≤ length input.now }
    ensures { finds wide input.now at result }
{
    let n = input.len();
    if n - at < 4 {
        return Found::Other;
    }
    if input[at] != b'x' {
        return Found::Other;
    }
    if input[at + 1] != b'\t' {
        return Found::Other;
    }
    let from = at + 2;
    let end = part_end(input, from, b'\n');
    if n <= end {
        return Found::Other;
    }
    if 62 < end - from {
        return Found::Other;
    }
    let v = integer_of(wide, parsed(&input[from..end]));
    if v.number != 0 {
        return Found::Other;
    }
    Found::Sample(v.value, end + 1)
}

// Whole lines that are samples within the word, from a line's start on, as many as there are or as samples has room for.
pub(crate) fn gather(wide: bool, input: &[u8], from: usize, samples: &mut [i64]) -> Gathered
    requires { (from ≤ length input.now) × (512 ≤ length samples.old) }
    ensures { Gathers wide input.now from samples.new result.count result.next }
{
    let mut k: usize = 0;
    let mut i = from;
    while k < 512 {
        let found = sample_at(wide, input, i);
        let Found::Sample(x, next) = found else {
            return Gathered { count: k, next: i };
        };
        samples[k] = x;
        i = next;
        k += 1;
    }
    Gathered { count: k, next: i }
}

// The line of the output i places after one that tells `told`.
fn put_next(out: &mut [u8], at: usize, value: i64, told: usize, i: usize) -> usize
    requires { (told ≤ 64) × (at + 26 ≤ length out.old) }
    ensures { Wrote out.old at (output_line value (told - i)) result out.new × (result ≤ at + 26) }
{
    if told <= i {
        return put_settled(out, at, value);
    }
    put_output(out, at, value, told - i)
}

// The output lines of a block that gave the first count of given, read in the word, and told this count with its first.
pub(crate) fn put_outputs(
    wide: bool,
    out: &mut [u8],
    at: usize,
    given: &[i64],
    count: usize,
    told: usize,
) -> usize
    requires { (told ≤ 64) × (count ≤ length given.now) × (at + 26 * count ≤ length out.old) }
    ensures { Wrote out.old at (output_lines wide told (take count given.now)) result out.new
        × (result ≤ at + 26 * count) }
{
    let mut w = at;
    let mut i: usize = 0;
    while i < count {
        let y = given[i];
        let value = read_in(wide, y);
        w = put_next(out, w, value, told, i);
        i += 1;
    }
    w
}
