// What is answered to a store: bytes put at the start of a lent buffer that has room.
ghost use Rattle.std.specs.Prelude.{◌≤◌, length};
ghost use Rattle.blocks.specs.Refusals.{number_of};
ghost use Rattle.text.specs.Writing.{Puts};
ghost use Rattle.settings_text.specs.Lines.{version_of};
ghost use Rattle.settings_text.specs.Moves.{forth, back};
ghost use Rattle.settings.specs.Answers.{Gave, ok_form, ok_answer, bad_answer, checked, copied, found_in, move_answer};

use settings_text::version::Version;
use store::moving::{move_back, move_forth};
use store_read::reading::{BadLine, form_of, read_store};
use store_write::saving::write_store;
use text::writing::{put_byte, put_bytes, put_decimal};

// `ok` and the form.
fn put_form(version: Version, out: &mut [u8]) -> usize
    requires { 36 ≤ length out.old }
    ensures { Puts out.old 0 (ok_form version) result out.new }
{
    match version {
        Version::One => put_bytes(out, 0, b"ok\t1\t"),
        Version::Two => put_bytes(out, 0, b"ok\t2\t"),
    }
}

// `ok`, the form and the count of records.
fn put_ok(version: Version, count: usize, out: &mut [u8]) -> usize
    requires { 36 ≤ length out.old }
    ensures { Gave out.old (ok_answer version count) result out.new }
{
    let a = put_form(version, out);
    let b = put_decimal(out, a, count as u64);
    put_byte(out, b, b'\n')
}

// `bad`, line number from 1, refusal number.
fn put_bad(bad: BadLine, out: &mut [u8]) -> usize
    requires { 36 ≤ length out.old }
    ensures { Gave out.old (bad_answer bad.line (number_of bad.refusal)) result out.new }
{
    let number = bad.refusal.number();
    let a = put_bytes(out, 0, b"bad\t");
    let b = put_decimal(out, a, bad.line as u64);
    let c = put_byte(out, b, b'\t');
    let d = put_decimal(out, c, number as u64);
    put_byte(out, d, b'\n')
}

// The answer of `check`.
pub(crate) fn put_checked(text: &[u8], out: &mut [u8]) -> usize
    requires { 36 ≤ length out.old }
    ensures { Gave out.old (checked (version_of text.now) (found_in text.now)) result out.new }
{
    let version = form_of(text);
    match read_store(version, text) {
        Ok(settings) => put_ok(version, settings.count, out),
        Err(bad) => put_bad(bad, out),
    }
}

// The answer of `copy`.
pub(crate) fn put_copied(text: &[u8], out: &mut [u8]) -> usize
    requires { (36 ≤ length out.old) × (length text.now ≤ length out.old) }
    ensures { Gave out.old (copied text.now (found_in text.now)) result out.new }
{
    let version = form_of(text);
    match read_store(version, text) {
        Ok(settings) => match write_store(version, settings, out) {
            Ok(n) => n,
            Err(refusal) => put_bad(BadLine { line: 0, refusal }, out),
        },
        Err(bad) => put_bad(bad, out),
    }
}

// The answer of `forth`.
pub(crate) fn put_forth(text: &[u8], out: &mut [u8]) -> usize
    requires { 36 ≤ length out.old }
    ensures { Gave out.old (move_answer (forth text.now) out.old) result out.new }
{
    match move_forth(text, out) {
        Ok(n) => n,
        Err(bad) => put_bad(bad, out),
    }
}

// The answer of `back`.
pub(crate) fn put_back(text: &[u8], out: &mut [u8]) -> usize
    requires { 36 ≤ length out.old }
    ensures { Gave out.old (move_answer (back text.now) out.old) result out.new }
{
    match move_back(text, out) {
        Ok(n) => n,
        Err(bad) => put_bad(bad, out),
    }
}
