// A record's line, without its newline. Fields that are left are lent as the text behind a tab, or none.
ghost use Rattle.std.specs.Prelude.{◌≡◌, ◌≤◌, ℕ, List, pos, length, set};
ghost use Rattle.std.specs.Option.{option_copied};
ghost use Rattle.std.specs.Int.{w32};
ghost use Rattle.words.specs.Words.{wrap};
ghost use Rattle.text.specs.Hex.{hex_digit};
ghost use Rattle.text.specs.Parts.{parted};
ghost use Rattle.text.specs.Ranges.{range, number_in, numbers_in};
ghost use Rattle.settings_text.specs.Fields.{hexes_in, nibbles_in};
ghost use Rattle.settings_text.specs.Lines.{cic_in, wdf_in, dither_in, kind_in, record_in};
ghost use Rattle.settings_text.specs.declared.version.Version.TheVariants.{Two};
ghost use Rattle.entries.specs.Entries.{padded};
ghost use Rattle.store_read.specs.Reading.{parts_left, word_by, arch_by, numbers_read, body_read, line_read};

use crate::cutting::cut;
use entries::names::is_name;
use entries::settings::{Entry, Kind, Name};
use settings_text::version::Version;
use text::comparing::same_bytes;
use text::hex::digit_of;
use text::numbers::{Number, parsed};
use words::casts::{i32_as_u32, u32_as_i32};

// How many bytes a line has at most, before its newline.
const LONGEST: usize = 160;

// Numbers of some fields: how many, and the first eight as words.
#[derive(Clone, Copy, Debug, PartialEq, Eq)]
pub struct Numbers {
    pub count: usize,
    pub words: [i32; 8],
}

// A record without its name.
#[derive(Clone, Copy, Debug, PartialEq, Eq)]
pub struct Body {
    pub kind: Kind,
    pub a: [i32; 8],
}

// The word of a number from -least to most.
fn word_of(field: &[u8], least: u64, most: u64) -> Option<u32>
    requires { (least ≤ 2147483648) × (most ≤ 4294967295) }
    ensures { result ≡ word_by (number_in (range least most) field.now) }
{
    match parsed(field)? {
        Number::Plus(v) => { if v <= most { Some(v as u32) } else { None } }
        Number::Minus(v) => {
            if v <= least {
                Some((4294967296 - v) as u32)
            } else {
                None
            }
        }
    }
}

// A word more, where it is one of the first eight.
fn keep(words: &mut [i32; 8], n: usize, w: u32)
    ensures { words.new ≡ set words.old n (wrap w32 (pos w)) }
{
    if n < 8 {
        words[n] = u32_as_i32(w);
    }
}

// The numbers of a text's fields.
fn numbers_of(text: &[u8], least: u64, most: u64) -> Option<Numbers>
    requires { (least ≤ 2147483648) × (most ≤ 4294967295) }
    ensures { result ≡ numbers_read (numbers_in (range least most) (parted 9 text.now)) }
{
    let mut words = [0i32; 8];
    let mut count: usize = 0;
    let mut left = Some(text);
    while let Some(fields) = left {
        let (field, rest) = cut(fields, b'\t');
        let Some(w) = word_of(field, least, most) else {
            return None;
        };
        keep(&mut words, count, w);
        count += 1;
        left = rest;
    }
    Some(Numbers { count, words })
}

// The numbers of all fields that are left.
fn numbers_left(fields: Option<&[u8]>, least: u64, most: u64) -> Option<Numbers>
    requires { (least ≤ 2147483648) × (most ≤ 4294967295) }
    ensures { result ≡ numbers_read (numbers_in (range least most) (parts_left 9 (option_copied fields.entry))) }
{
    match fields {
        Some(text) => numbers_of(text, least, most),
        None => Some(Numbers {
            count: 0,
            words: [0; 8],
        }),
    }
}

// A hex digit's nibble, or 16.
fn nibble_of(b: u8) -> u32
    ensures { result ≡ hex_digit b }
{
    match digit_of(b) {
        Some(d) => d as u32,
        None => 16,
    }
}

// The word of k nibbles, the first one lowest.
fn hexes(field: &[u8], k: usize) -> Option<u32>
    ensures { result ≡ arch_by (hexes_in k field.now) }
{
    if field.len() != k {
        return None;
    }
    let mut m: u32 = 0;
    for i in (0..k).rev() {
        let d = nibble_of(field[i]);
        if 15 < d {
            return None;
        }
        m = m % 268435456 * 16 + d;
    }
    Some(m)
}

// The same, with `-` for none.
fn nibbles(field: &[u8], k: usize) -> Option<u32>
    ensures { result ≡ arch_by (nibbles_in k field.now) }
{
    if 0 < k {
        return hexes(field, k);
    }
    if same_bytes(field, b"-") {
        return Some(0);
    }
    None
}

// A name's bytes, and then zeros.
fn name_of(s: &[u8]) -> Name
    requires { length s.now ≤ 16 }
    ensures { result ≡ padded s.now }
{
    let mut bytes = [0u8; 16];
    bytes[..s.len()].copy_from_slice(s);
    Name {
        bytes,
        len: s.len(),
    }
}

// The fields of a `cic` record after its name.
fn cic(fields: Option<&[u8]>) -> Option<Body>
    ensures { (name : List ℕ) → result ≡ body_read (cic_in name (parts_left 9 (option_copied fields.entry))) }
{
    let ns = numbers_left(fields, 0, 4294967295)?;
    if ns.count != 3 {
        return None;
    }
    let order = i32_as_u32(ns.words[0]);
    let delay = i32_as_u32(ns.words[1]);
    let rate = i32_as_u32(ns.words[2]);
    Some(Body {
        kind: Kind::Cic(order, delay, rate),
        a: [0; 8],
    })
}

// The fields of a `wdf` record after its name.
fn wdf(fields: Option<&[u8]>) -> Option<Body>
    ensures { (name : List ℕ) → result ≡ body_read (wdf_in name (parts_left 9 (option_copied fields.entry))) }
{
    let (sections, behind) = cut(fields?, b'\t');
    let (architecture, rest) = cut(behind?, b'\t');
    let cs = numbers_left(rest, 2147483648, 2147483647)?;
    let n = word_of(sections, 0, 4294967295)?;
    if n as usize != cs.count {
        return None;
    }
    let m = nibbles(architecture, cs.count)?;
    Some(Body {
        kind: Kind::Wdf(cs.count, m),
        a: cs.words,
    })
}

// The fields of a `dither` record after its name.
fn dither(fields: Option<&[u8]>) -> Option<Body>
    ensures { (name : List ℕ) → result ≡ body_read (dither_in Two name (parts_left 9 (option_copied fields.entry))) }
{
    let (fraction, rest) = cut(fields?, b'\t');
    let f = word_of(fraction, 0, 4294967295)?;
    let cs = numbers_left(rest, 2147483648, 2147483647)?;
    if cs.count != 8 {
        return None;
    }
    Some(Body {
        kind: Kind::Dither(f),
        a: cs.words,
    })
}

// The fields after the name, by the line's first word.
fn body_in(version: Version, word: &[u8], fields: Option<&[u8]>) -> Option<Body>
    ensures { (name : List ℕ) → result ≡ body_read (kind_in version word.now name (parts_left 9 (option_copied fields.entry))) }
{
    if same_bytes(word, b"cic") {
        return cic(fields);
    }
    if same_bytes(word, b"wdf") {
        return wdf(fields);
    }
    if !same_bytes(word, b"dither") {
        return None;
    }
    match version {
        Version::One => None,
        Version::Two => dither(fields),
    }
}

// A line read as a record of a form.
pub(crate) fn record_in(version: Version, line: &[u8]) -> Option<Entry>
    ensures { result ≡ line_read (record_in version line.now) }
{
    if LONGEST < line.len() {
        return None;
    }
    let (word, behind) = cut(line, b'\t');
    let (name, fields) = cut(behind?, b'\t');
    if !is_name(name) {
        return None;
    }
    let read = body_in(version, word, fields)?;
    Some(Entry {
        name: name_of(name),
        kind: read.kind,
        a: read.a,
    })
}
