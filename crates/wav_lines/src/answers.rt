// A line of the replay program's answer, or the first line, which says how the answer becomes a recording. A line's fields are
// parted by tabs, and past the last field there are only empty ones.
ghost use Rattle.std.specs.Prelude.{◌≡◌, length, drop};
ghost use Rattle.text.specs.Numbers.{number_of, capped};
ghost use Rattle.wav_lines.specs.Answers.{field_from, next_from, natural_in, integer_in, kept_in};
ghost use Rattle.wav_lines.specs.Answers.{settings_in, output_in, end_in, bad_in, name_in, shaped_by, filled_in, line_in};

use text::comparing::same_bytes;
use text::numbers::{Number, parsed};
use text::parts::{part_end, separators};

// Samples a second, the power of two that values are divided by, and the greatest told count of an output that is written.
#[derive(Clone, Copy, Debug, PartialEq, Eq)]
pub struct Setting {
    pub rate: u32,
    pub shift: u32,
    pub most: u64,
}

// An output's value, and how many outputs from this one on are not settled: 0 where it is.
#[derive(Clone, Copy, Debug, PartialEq, Eq)]
pub struct Output {
    pub value: i64,
    pub told: u64,
}

// The line that the replay refused, and its number.
#[derive(Clone, Copy, Debug, PartialEq, Eq)]
pub struct Refusal {
    pub line: u64,
    pub number: u64,
}

// What a line says.
#[derive(Clone, Copy, Debug, PartialEq, Eq)]
pub enum Line {
    Settings(Setting),
    Output(Output),
    End(u64),
    Bad(Refusal),
}

// The name in a line's first field.
#[derive(Clone, Copy, Debug, PartialEq, Eq)]
pub enum Name {
    Y,
    End,
    Bad,
    Wav,
}

// The first field, and the fields behind it.
fn cut(fields: &[u8]) -> (&[u8], &[u8])
    ensures first { result.0.now ≡ field_from fields.now 0 }
    ensures rest { result.1.now ≡ drop (next_from fields.now 0) fields.now }
{
    let (first, rest) = fields.split_at(part_end(fields, 0, b'\t'));
    match rest {
        [_, rest @ ..] => (first, rest),
        [] => (first, rest),
    }
}

// A field's number, from 0 to 2^63.
fn natural(field: &[u8]) -> Option<u64>
    ensures { result ≡ natural_in (capped (number_of field.now)) }
{
    match parsed(field) {
        Some(Number::Plus(v)) if v <= 9223372036854775808 => Some(v),
        _ => None,
    }
}

// A field's number, within i64.
fn integer(field: &[u8]) -> Option<i64>
    ensures { result ≡ integer_in (capped (number_of field.now)) }
{
    match parsed(field) {
        Some(Number::Plus(v)) => i64::try_from(v).ok(),
        Some(Number::Minus(v)) if v != 0 => 0i64.checked_sub_unsigned(v),
        _ => None,
    }
}

// Which outputs are written, by the greatest told count: `settled` or `all`.
#[tactic(auto, unfolding(crate::specs::Answers::kept_in))]
fn kept(field: &[u8]) -> Option<u64>
    ensures { result ≡ kept_in field.now }
{
    if same_bytes(field, b"settled") {
        Some(0)
    } else if same_bytes(field, b"all") {
        Some(9223372036854775808)
    } else {
        None
    }
}

fn settings_line(fields: &[u8]) -> Option<Line>
    ensures { result ≡ settings_in fields.now 0 }
{
    let (rate, fields) = cut(fields);
    let (shift, fields) = cut(fields);
    let (most, _) = cut(fields);
    let rate = natural(rate)?;
    let shift = natural(shift)?;
    let most = kept(most)?;
    if 4294967295 < rate || 63 < shift {
        return None;
    }
    Some(Line::Settings(Setting {
        rate: rate as u32,
        shift: shift as u32,
        most,
    }))
}

fn output_line(fields: &[u8]) -> Option<Line>
    ensures { result ≡ output_in fields.now 0 }
{
    let (value, fields) = cut(fields);
    let (told, _) = cut(fields);
    let value = integer(value)?;
    let told = natural(told)?;
    Some(Line::Output(Output { value, told }))
}

fn end_line(fields: &[u8]) -> Option<Line>
    ensures { result ≡ end_in fields.now 0 }
{
    let (count, _) = cut(fields);
    let count = natural(count)?;
    Some(Line::End(count))
}

fn bad_line(fields: &[u8]) -> Option<Line>
    ensures { result ≡ bad_in fields.now 0 }
{
    let (line, fields) = cut(fields);
    let (number, _) = cut(fields);
    let line = natural(line)?;
    let number = natural(number)?;
    if number == 0 {
        return None;
    }
    Some(Line::Bad(Refusal { line, number }))
}

// The name in a line's first field.
// Kept: a `match` on the byte strings leaves a goal at each of their bytes, which no tactic closes.
#[tactic(auto, unfolding(crate::specs::Answers::name_in))]
fn named(field: &[u8]) -> Option<Name>
    ensures { result ≡ name_in field.now }
{
    if same_bytes(field, b"y") {
        Some(Name::Y)
    } else if same_bytes(field, b"end") {
        Some(Name::End)
    } else if same_bytes(field, b"bad") {
        Some(Name::Bad)
    } else if same_bytes(field, b"wav") {
        Some(Name::Wav)
    } else {
        None
    }
}

// Whether a line of that name has so many tabs as its fields ask for.
fn shaped(name: Name, tabs: usize) -> bool
    ensures { result ≡ shaped_by (Some name) tabs }
{
    match name {
        Name::Y => tabs == 2,
        Name::End => tabs == 1,
        Name::Bad => 2 <= tabs,
        Name::Wav => tabs == 3,
    }
}

// What the fields behind a name say.
fn filled(name: Name, fields: &[u8]) -> Option<Line>
    ensures { result ≡ filled_in (Some name) fields.now 0 }
{
    match name {
        Name::Y => output_line(fields),
        Name::End => end_line(fields),
        Name::Bad => bad_line(fields),
        Name::Wav => settings_line(fields),
    }
}

// What a line says, without its newline; none where it is of no such form.
pub fn read_line(line: &[u8]) -> Option<Line>
    ensures { result ≡ line_in line.now }
{
    let (first, fields) = cut(line);
    let name = named(first)?;
    if !shaped(name, separators(line, b'\t')) {
        return None;
    }
    filled(name, fields)
}
