// A line read as a record: its fields are counted, then read from left to right.
ghost use Rattle.std.specs.Prelude.{◌≡◌, ◌≤◌, length, drop};
ghost use Rattle.text.specs.Letters.{tab};
ghost use Rattle.text.specs.Parts.{behind};
ghost use Rattle.records.specs.Lines.{name_of, is_known, wanted_of, word_range, field_at, fault_at, held_record, record_of};
ghost use Rattle.records.specs.Inner.Fields.{Reads, natural_of, integer_of, opening_of, opening_fields, rate_of, sample_of};

use text::comparing::same_bytes;
use text::numbers::{Number, parsed};
use text::parts::{part_end, separators};
use words::casts::u64_as_i64;

// What is wrong with a line's form (02, A2), in the order of the tests.
const UNKNOWN: u32 = 73;

const MISCOUNTED: u32 = 74;

const MALFORMED: u32 = 75;

const OUTSIDE: u32 = 76;

// What is wrong with a line: its refusal number, and the place of the field that it is about (the name's is 1), or 0.
#[derive(Clone, Copy)]
pub struct Fault {
    pub number: u32,
    pub place: u8,
}

// A line's record, or what is wrong with it (02, A2: 73 to 76). A filter is opened with words of 64 bits (`cic64`) or of
// 32 (`cic`).
#[derive(Clone, Copy)]
pub enum Record {
    Open(bool, u32, u32, u32),
    Rate(u32),
    Sample(i64),
    Clear,
    Bad(Fault),
}

// The name in a line's first field.
#[derive(Clone, Copy)]
pub enum Name {
    Cic,
    Cic64,
    Rate,
    X,
    Clear,
    Unknown,
}

// A number of u32: its refusal number, 75 or 76, or 0 and its value.
#[derive(Clone, Copy)]
pub struct Natural {
    pub number: u32,
    pub value: u32,
}

// The same of the session's word.
#[derive(Clone, Copy)]
pub struct Integer {
    pub number: u32,
    pub value: i64,
}

// The number in a field, and where the field ends.
#[derive(Clone, Copy)]
pub struct Cell {
    pub value: Option<Number>,
    pub end: usize,
}

#[tactic(auto, unfolding(crate::specs::Lines::name_of))]
fn named(name: &[u8]) -> Name
    ensures { result ≡ name_of name.now }
{
    if same_bytes(name, b"cic") {
        return Name::Cic;
    }
    if same_bytes(name, b"cic64") {
        return Name::Cic64;
    }
    if same_bytes(name, b"rate") {
        return Name::Rate;
    }
    if same_bytes(name, b"x") {
        return Name::X;
    }
    if same_bytes(name, b"clear") {
        return Name::Clear;
    }
    Name::Unknown
}

fn known(name: Name) -> bool
    ensures { result ≡ is_known name }
{
    match name {
        Name::Cic => true,
        Name::Cic64 => true,
        Name::Rate => true,
        Name::X => true,
        Name::Clear => true,
        Name::Unknown => false,
    }
}

// How many fields follow the name.
fn wanted(name: Name) -> usize
    ensures { result ≡ wanted_of name }
{
    match name {
        Name::Cic => 3,
        Name::Cic64 => 3,
        Name::Rate => 1,
        Name::X => 1,
        Name::Clear => 0,
        Name::Unknown => 0,
    }
}

// N, M or rate. Refused with 75 where it is no well-formed number, with 76 outside u32.
fn natural_of(n: Option<Number>) -> Natural
    ensures { result ≡ natural_of n }
{
    match n {
        Some(Number::Plus(v)) => {
            if v <= 4294967295 {
                Natural {
                    number: 0,
                    value: v as u32,
                }
            } else {
                Natural {
                    number: OUTSIDE,
                    value: 0,
                }
            }
        }
        Some(Number::Minus(v)) => {
            if v == 0 {
                Natural {
                    number: MALFORMED,
                    value: 0,
                }
            } else {
                Natural {
                    number: OUTSIDE,
                    value: 0,
                }
            }
        }
        None => Natural {
            number: MALFORMED,
            value: 0,
        },
    }
}

// The size of the word's least number, of i64 or of i32.
fn least_size(wide: bool) -> u64
    ensures { result ≡ (word_range wide).least }
{
    if wide {
        9223372036854775808
    } else {
        2147483648
    }
}

// A sample. Refused with 75 where it is no well-formed number, with 76 outside the word, i64 or i32.
pub fn integer_of(wide: bool, n: Option<Number>) -> Integer
    ensures { result ≡ integer_of wide n }
{
    let least = least_size(wide);
    match n {
        Some(Number::Plus(v)) => {
            if v < least {
                Integer {
                    number: 0,
                    value: u64_as_i64(v),
                }
            } else {
                Integer {
                    number: OUTSIDE,
                    value: 0,
                }
            }
        }
        Some(Number::Minus(v)) => {
            if v == 0 {
                return Integer {
                    number: MALFORMED,
                    value: 0,
                };
            }
            if v <= least {
                Integer {
                    number: 0,
                    value: u64_as_i64(18446744073709551615 - (v - 1)),
                }
            } else {
                Integer {
                    number: OUTSIDE,
                    value: 0,
                }
            }
        }
        None => Integer {
            number: MALFORMED,
            value: 0,
        },
    }
}

// The first field after the tab at e.
fn field(line: &[u8], e: usize) -> Cell
    requires { 1 ≤ length (behind tab (drop e line.now)) }
    ensures { Reads line.now e result.value result.end }
{
    let from = e + 1;
    let end = part_end(line, from, b'\t');
    let value = parsed(&line[from..end]);
    Cell { value, end }
}

fn bad_field(number: u32, place: u8) -> Record
    ensures { result ≡ Record.Bad (fault_at number place) }
{
    Record::Bad(Fault { number, place })
}

fn opening(wide: bool, a: Natural, b: Natural, c: Natural) -> Record
    ensures { result ≡ opening_of wide a b c }
{
    if a.number != 0 {
        return bad_field(a.number, 2);
    }
    if b.number != 0 {
        return bad_field(b.number, 3);
    }
    if c.number != 0 {
        return bad_field(c.number, 4);
    }
    Record::Open(wide, a.value, b.value, c.value)
}

fn opening_record(wide: bool, line: &[u8], e: usize) -> Record
    requires { length (behind tab (drop e line.now)) ≡ 3 }
    ensures { result ≡ opening_fields wide (behind tab (drop e line.now)) }
{
    let a = field(line, e);
    let i = a.end;
    let b = field(line, i);
    let j = b.end;
    let c = field(line, j);
    let n = a.value;
    let m = b.value;
    let rate = c.value;
    opening(wide, natural_of(n), natural_of(m), natural_of(rate))
}

fn rate_record(line: &[u8], e: usize) -> Record
    requires { length (behind tab (drop e line.now)) ≡ 1 }
    ensures { result ≡ rate_of (natural_of (field_at (behind tab (drop e line.now)) 0)) }
{
    let a = field(line, e);
    let v = a.value;
    let n = natural_of(v);
    if n.number != 0 {
        return bad_field(n.number, 2);
    }
    Record::Rate(n.value)
}

fn sample_record(wide: bool, line: &[u8], e: usize) -> Record
    requires { length (behind tab (drop e line.now)) ≡ 1 }
    ensures { result ≡ sample_of (integer_of wide (field_at (behind tab (drop e line.now)) 0)) }
{
    let a = field(line, e);
    let v = a.value;
    let n = integer_of(wide, v);
    if n.number != 0 {
        return bad_field(n.number, 2);
    }
    Record::Sample(n.value)
}

// The record of a known name, whose fields follow the tab at e, as many as it wants.
fn named_record(wide: bool, name: Name, line: &[u8], e: usize) -> Record
    requires { length (behind tab (drop e line.now)) ≡ wanted_of name }
    ensures { result ≡ held_record wide name (behind tab (drop e line.now)) }
{
    match name {
        Name::Cic => opening_record(false, line, e),
        Name::Cic64 => opening_record(true, line, e),
        Name::Rate => rate_record(line, e),
        Name::X => sample_record(wide, line, e),
        Name::Clear => Record::Clear,
        Name::Unknown => bad_field(UNKNOWN, 0),
    }
}

// A line, without its newline, read as a record of a session with words of 64 bits or of 32. Bad with 73 where the name
// is unknown, then with 74 where the fields are too few or too many, then with the first bad field's number and place.
pub fn parse(wide: bool, line: &[u8]) -> Record
    ensures { result ≡ record_of wide line.now }
{
    let e = part_end(line, 0, b'\t');
    let name = named(&line[..e]);
    if !known(name) {
        return bad_field(UNKNOWN, 0);
    }
    if separators(line, b'\t') != wanted(name) {
        return bad_field(MISCOUNTED, 0);
    }
    named_record(wide, name, line, e)
}
