// A record's line, put into a lent buffer that has room for it.
// Kept: places in the buffer, since the calls of text::writing take a place and give the next.
ghost use Rattle.std.specs.Prelude.{◌≡◌, [], ◌∷◌, ◌++◌, map, ◌+◌, ◌*◌, ◌≤◌, ◌<◌, length, take};
ghost use Rattle.std.specs.Int.{w32};
ghost use Rattle.words.specs.Words.{wrap};
ghost use Rattle.text.specs.Letters.{newline};
ghost use Rattle.text.specs.Numbers.{decimal_of, signed_of};
ghost use Rattle.text.specs.Ranges.{texts};
ghost use Rattle.settings_text.specs.Fields.{hex_of, hexes_of, nibbles_of};
ghost use Rattle.settings_text.specs.Lines.{record_line};
ghost use Rattle.entries.specs.Entries.{entry_setting};
ghost use Rattle.store_write.specs.Writing.{Fielded, Ended, kind_word, body_of, sections};

use entries::settings::{Entry, Kind};
use text::writing::{put_byte, put_bytes, put_decimal, put_signed};

// The bytes of the digit 0 and of the letter a.
const ZERO: u32 = b'0' as u32;

const A: u32 = b'a' as u32;

// A tab and some bytes.
fn put_text(out: &mut [u8], at: usize, s: &[u8]) -> usize
    requires { at + (length s.now + 1) ≤ length out.old }
    ensures { Fielded out.old at (s.now ∷ []) (length s.now + 1) result out.new }
{
    let next = put_byte(out, at, b'\t');
    put_bytes(out, next, s)
}

// A tab and a number.
fn put_natural(out: &mut [u8], at: usize, n: u32) -> usize
    requires { at + 11 ≤ length out.old }
    ensures { Fielded out.old at (decimal_of n ∷ []) 11 result out.new }
{
    let next = put_byte(out, at, b'\t');
    put_decimal(out, next, n as u64)
}

// A tab and a number with its sign.
fn put_integer(out: &mut [u8], at: usize, v: i32) -> usize
    requires { at + 12 ≤ length out.old }
    ensures { Fielded out.old at (signed_of v ∷ []) 12 result out.new }
{
    let next = put_byte(out, at, b'\t');
    put_signed(out, next, v)
}

// The first k coefficients.
fn put_integers(out: &mut [u8], at: usize, a: &[i32; 8], k: usize) -> usize
    requires { (at + 12 * k ≤ length out.old) × (k ≤ 8) }
    ensures { Fielded out.old at (texts (take k (map (wrap w32) a.now))) (12 * k) result out.new }
{
    let mut next = at;
    for i in 0..k {
        next = put_integer(out, next, a[i]);
    }
    next
}

// A nibble's hex digit.
fn hex_byte(d: u32) -> u8
    requires { d < 16 }
    ensures { result ≡ hex_of d }
{
    if d < 10 {
        return (ZERO + d) as u8;
    }
    (A + (d - 10)) as u8
}

// The first k nibbles.
fn put_hexes(out: &mut [u8], at: usize, k: usize, m: u32) -> usize
    requires { at + k ≤ length out.old }
    ensures { Ended out.old at (hexes_of k m) k result out.new }
{
    let mut left = m;
    let mut next = at;
    for _i in 0..k {
        next = put_byte(out, next, hex_byte(left % 16));
        left /= 16;
    }
    next
}

// A tab and the nibbles, or `-`.
fn put_nibbles(out: &mut [u8], at: usize, k: usize, m: u32) -> usize
    requires { (at + 10 ≤ length out.old) × (k ≤ 8) }
    ensures { Fielded out.old at (nibbles_of k m ∷ []) 10 result out.new }
{
    if k == 0 {
        return put_text(out, at, b"-");
    }
    let next = put_byte(out, at, b'\t');
    put_hexes(out, next, k, m)
}

// The fields of each kind after its name.
fn put_cic(out: &mut [u8], at: usize, n: u32, m: u32, rate: u32) -> usize
    requires { at + 33 ≤ length out.old }
    ensures { Fielded out.old at (decimal_of n ∷ decimal_of m ∷ decimal_of rate ∷ []) 33 result out.new }
{
    let x = put_natural(out, at, n);
    let y = put_natural(out, x, m);
    put_natural(out, y, rate)
}

fn put_wdf(out: &mut [u8], at: usize, k: usize, m: u32, a: &[i32; 8]) -> usize
    requires { (at + 117 ≤ length out.old) × (k ≤ 8) }
    ensures { Fielded out.old at (decimal_of k ∷ nibbles_of k m ∷ texts (take k (map (wrap w32) a.now))) 117 result out.new }
{
    let x = put_natural(out, at, k as u32);
    let y = put_nibbles(out, x, k, m);
    put_integers(out, y, a, k)
}

fn put_dither(out: &mut [u8], at: usize, f: u32, a: &[i32; 8]) -> usize
    requires { at + 117 ≤ length out.old }
    ensures { Fielded out.old at (decimal_of f ∷ texts (take 8 (map (wrap w32) a.now))) 117 result out.new }
{
    let x = put_natural(out, at, f);
    put_integers(out, x, a, 8)
}

// A kind's word.
fn put_kind(out: &mut [u8], at: usize, kind: Kind) -> usize
    requires { at + 6 ≤ length out.old }
    ensures { Ended out.old at (kind_word kind) 6 result out.new }
{
    match kind {
        Kind::Cic(_, _, _) => put_bytes(out, at, b"cic"),
        Kind::Wdf(_, _) => put_bytes(out, at, b"wdf"),
        Kind::Dither(_) => put_bytes(out, at, b"dither"),
    }
}

// The fields after the name.
fn put_body(out: &mut [u8], at: usize, kind: Kind, a: &[i32; 8]) -> usize
    requires { (at + 117 ≤ length out.old) × (sections kind ≤ 8) }
    ensures { Fielded out.old at (body_of kind (map (wrap w32) a.now)) 117 result out.new }
{
    match kind {
        Kind::Cic(n, m, rate) => put_cic(out, at, n, m, rate),
        Kind::Wdf(k, m) => put_wdf(out, at, k, m, a),
        Kind::Dither(f) => put_dither(out, at, f, a),
    }
}

// A record's line and its newline.
pub(crate) fn put_line(out: &mut [u8], at: usize, entry: Entry) -> usize
    requires { (at + 141 ≤ length out.old) × (sections entry.kind ≤ 8) × (entry.name.len ≤ 16) }
    ensures { Ended out.old at (record_line (entry_setting entry) ++ (newline ∷ [])) 141 result out.new }
{
    let kind = entry.kind;
    let a = entry.a;
    let name = entry.name;
    let bytes = name.bytes;
    let len = name.len;
    let x = put_kind(out, at, kind);
    let y = put_text(out, x, &bytes[..len]);
    let z = put_body(out, y, kind, &a);
    put_byte(out, z, b'\n')
}
