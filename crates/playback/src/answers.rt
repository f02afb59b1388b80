// The lines of the output, put into a lent buffer at a place where there is room. Each gives the next place.
ghost use Rattle.std.specs.Prelude.{◌≡◌, true, ◌+◌, ◌≤◌, length};
ghost use Rattle.text.specs.Numbers.{decimal_of};
ghost use Rattle.text.specs.Writing.{Wrote};
ghost use Rattle.playback.specs.Replays.{last_field, output_line, end_line, bad_line};
ghost use Rattle.playback.specs.Places.{reply_bytes, goes_on, answer_number, Writes};
ghost use Rattle.playback.specs.Inner.Advances.{line_room};

use blocks::Refusal;
use records::session::Reply;
use text::writing::{put_byte, put_bytes, put_decimal, put_signed64};

// A line's last field: a tab, a number and the newline.
fn put_last(out: &mut [u8], at: usize, n: u64) -> usize
    requires { at + 2 + length (decimal_of n) ≤ length out.old }
    ensures { Wrote out.old at (last_field n) result out.new }
{
    let a = put_byte(out, at, b'\t');
    let b = put_decimal(out, a, n);
    put_byte(out, b, b'\n')
}

// `y`, value, the count told.
pub(crate) fn put_output(out: &mut [u8], at: usize, value: i64, told: usize) -> usize
    requires { at + 24 + length (decimal_of told) ≤ length out.old }
    ensures { Wrote out.old at (output_line value told) result out.new
        × (result ≤ at + 24 + length (decimal_of told)) }
{
    let a = put_bytes(out, at, b"y\t");
    let b = put_signed64(out, a, value);
    if told == 0 {
        return put_bytes(out, b, b"\t0\n");
    }
    put_last(out, b, told as u64)
}

// The same where the count told is 0.
pub(crate) fn put_settled(out: &mut [u8], at: usize, value: i64) -> usize
    requires { at + 25 ≤ length out.old }
    ensures { Wrote out.old at (output_line value 0) result out.new × (result ≤ at + 25) }
{
    let a = put_bytes(out, at, b"y\t");
    let b = put_signed64(out, a, value);
    put_bytes(out, b, b"\t0\n")
}

// `bad`, line number from 1, refusal number, the bad field's place or 0.
pub(crate) fn put_bad(out: &mut [u8], at: usize, line: u64, number: u32, place: u8) -> usize
    requires { at + 40 ≤ length out.old }
    ensures { Wrote out.old at (bad_line line number place) result out.new × (result ≤ at + 40) }
{
    let a = put_bytes(out, at, b"bad\t");
    let b = put_decimal(out, a, line);
    let c = put_byte(out, b, b'\t');
    let d = put_decimal(out, c, number as u64);
    put_last(out, d, place as u64)
}

// `end` and the count of outputs.
pub(crate) fn put_end(out: &mut [u8], at: usize, outputs: u64) -> usize
    requires { at + 36 ≤ length out.old }
    ensures { Wrote out.old at (end_line outputs) result out.new × (result ≤ at + 36) }
{
    let a = put_bytes(out, at, b"end\t");
    let b = put_decimal(out, a, outputs);
    put_byte(out, b, b'\n')
}

// What line number `line` is answered.
pub(crate) fn put_reply(out: &mut [u8], at: usize, line: u64, reply: Reply) -> usize
    requires { at + 44 ≤ length out.old }
    ensures { Wrote out.old at (reply_bytes line reply) result out.new × (result ≤ at + 44)
        × (goes_on reply ≡ true → result ≤ at + line_room reply) }
{
    match reply {
        Reply::Silent => at,
        Reply::Output(y) => put_output(out, at, y.value, y.told),
        Reply::Bad(fault) => put_bad(out, at, line, fault.number, fault.place),
    }
}

// What line number `line` is answered, to the front of out; the rest stays. Gives how many bytes that is. Refused with 20, nothing written, where out
// is shorter than 44 bytes, the longest answer.
pub fn write_reply(line: u64, reply: Reply, out: &mut [u8]) -> Result<usize, Refusal>
    ensures { Writes (answer_number out.old) (reply_bytes line reply) out.old result out.new }
{
    if out.len() < 44 {
        return Err(Refusal::ShortOutput);
    }
    let n = put_reply(out, 0, line, reply);
    Ok(n)
}
