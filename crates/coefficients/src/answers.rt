// A line and its answer.
ghost use Rattle.std.specs.Prelude.{◌≡◌, true, ◌+◌, ◌≤◌, length};
ghost use Rattle.text.specs.Writing.{Wrote};
ghost use Rattle.coefficient_lines.specs.Lines.{letter_of, adapter_of, line_bits, pole_bits, bits_line, refused_line, answer_bytes};
ghost use Rattle.coefficient_lines.specs.Parts.{is_accepted};

use adapters::tpa::Tpa;
use blocks::Refusal;
use coefficient_lines::adapter::Adapter;
use rust_answers::doubles::from_bits;
use text::comparing::same_bytes;
use text::hex::hex_word;
use text::parts::part_end;
use text::writing::{put_byte, put_bytes, put_decimal, put_signed};

// The adapter that one letter names.
#[tactic(auto, unfolding(coefficient_lines::specs::Lines::letter_of))]
fn named_by_letter(name: &[u8]) -> Adapter
    ensures { result ≡ letter_of name.now }
{
    if same_bytes(name, b"A") {
        return Adapter::Named(Tpa::A);
    }
    if same_bytes(name, b"B") {
        return Adapter::Named(Tpa::B);
    }
    if same_bytes(name, b"C") {
        return Adapter::Named(Tpa::C);
    }
    if same_bytes(name, b"D") {
        return Adapter::Named(Tpa::D);
    }
    if same_bytes(name, b"Z") {
        return Adapter::Named(Tpa::Z);
    }
    if same_bytes(name, b"X") {
        return Adapter::Named(Tpa::X);
    }
    Adapter::Unknown
}

#[tactic(auto, unfolding(coefficient_lines::specs::Lines::adapter_of))]
fn named_by(name: &[u8]) -> Adapter
    ensures { result ≡ adapter_of name.now }
{
    if same_bytes(name, b"B1") {
        return Adapter::Named(Tpa::B1);
    }
    if same_bytes(name, b"C1") {
        return Adapter::Named(Tpa::C1);
    }
    named_by_letter(name)
}

// The bits of an adapter's coefficient for the pole of these digits.
fn pole_bits(named: Adapter, digits: Option<u64>) -> Result<i32, Refusal>
    ensures { result ≡ pole_bits named digits }
{
    let Adapter::Named(code) = named else {
        return Err(Refusal::UnknownRecord);
    };
    let Some(bits) = digits else {
        return Err(Refusal::Malformed);
    };
    code.quantize(from_bits(bits))
}

// A line's bits, or its refusal: `LongLine` where it has over 64 bytes, `UnknownRecord` by its name, `Malformed` by its digits,
// else the adapter's own, `RetiredAdapter` or `Coefficient`.
pub(crate) fn line_bits(line: &[u8]) -> Result<i32, Refusal>
    ensures { result ≡ line_bits line.now }
{
    if 64 < line.len() {
        return Err(Refusal::LongLine);
    }
    let e = part_end(line, 0, b'\t');
    let named = named_by(&line[..e]);
    if line.len() <= e {
        return pole_bits(named, None);
    }
    let from = e + 1;
    let digits = hex_word(&line[from..]);
    pole_bits(named, digits)
}

// The bits in decimal on a line.
fn put_bits(out: &mut [u8], at: usize, bits: i32) -> usize
    requires { at + 36 ≤ length out.old }
    ensures { Wrote out.old at (bits_line bits) result out.new × (result ≤ at + 12) }
{
    let a = put_signed(out, at, bits);
    put_byte(out, a, b'\n')
}

// `bad`, line number from 1, refusal number.
fn put_refused(out: &mut [u8], at: usize, line: u64, number: u32) -> usize
    requires { at + 36 ≤ length out.old }
    ensures { Wrote out.old at (refused_line line number) result out.new × (result ≤ at + 36) }
{
    let a = put_bytes(out, at, b"bad\t");
    let b = put_decimal(out, a, line);
    let c = put_byte(out, b, b'\t');
    let d = put_decimal(out, c, number as u64);
    put_byte(out, d, b'\n')
}

// What is answered for a line with this number.
pub(crate) fn put_answer(
    out: &mut [u8],
    at: usize,
    number: u64,
    answer: Result<i32, Refusal>,
) -> usize
    requires { at + 36 ≤ length out.old }
    ensures { Wrote out.old at (answer_bytes number answer) result out.new × (result ≤ at + 36)
        × (is_accepted answer ≡ true → result ≤ at + 12) }
{
    match answer {
        Ok(bits) => put_bits(out, at, bits),
        Err(refusal) => put_refused(out, at, number, refusal.number()),
    }
}
