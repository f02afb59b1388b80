// Bytes put into a lent buffer at a place. Each call gives the next place; where its bytes do not all fit, it writes
// nothing and gives the place back. The rest of the buffer stays.
ghost use Rattle.std.specs.Prelude.{◌≡◌, [], ◌∷◌, ◌+◌, leb, length};
ghost use Rattle.text.specs.Numbers.{decimal_of, signed_of};
ghost use Rattle.text.specs.Writing.{Puts};

// Whether n bytes fit at a place of a buffer of len.
fn has_room(len: usize, at: usize, n: usize) -> bool
    ensures { result ≡ leb (at + n) len }
{
    if len < at {
        return false;
    }
    n <= len - at
}

// One byte.
pub fn put_byte(out: &mut [u8], at: usize, b: u8) -> usize
    ensures { Puts out.old at (b ∷ []) result out.new }
{
    if out.len() <= at {
        return at;
    }
    out[at] = b;
    at + 1
}

// Some bytes.
pub fn put_bytes(out: &mut [u8], at: usize, s: &[u8]) -> usize
    ensures { Puts out.old at s.now result out.new }
{
    if !has_room(out.len(), at, s.len()) {
        return at;
    }
    let end = at + s.len();
    out[at..end].copy_from_slice(s);
    end
}

// How many decimal digits n has.
fn width(n: u64) -> usize
    ensures { result ≡ length (decimal_of n) }
{
    let mut p: u64 = 10;
    for w in 1..19 {
        if n < p {
            return w;
        }
        p = p * 10;
    }
    if n < p { 19 } else { 20 }
}

// A number's decimal digits.
pub fn put_decimal(out: &mut [u8], at: usize, n: u64) -> usize
    ensures { Puts out.old at (decimal_of n) result out.new }
{
    let w = width(n);
    if !has_room(out.len(), at, w) {
        return at;
    }
    let end = at + w;
    let mut left = n;
    for i in (at..end).rev() {
        out[i] = b'0' + (left % 10) as u8;
        left = left / 10;
    }
    end
}

// A number of 64 bits with its sign, in decimal.
pub fn put_signed64(out: &mut [u8], at: usize, v: i64) -> usize
    ensures { Puts out.old at (signed_of v) result out.new }
{
    let size = v.unsigned_abs();
    if 0 <= v {
        return put_decimal(out, at, size);
    }
    if !has_room(out.len(), at, width(size) + 1) {
        return at;
    }
    let next = put_byte(out, at, b'-');
    put_decimal(out, next, size)
}

// A number of 32 bits with its sign, in decimal.
pub fn put_signed(out: &mut [u8], at: usize, v: i32) -> usize
    ensures { Puts out.old at (signed_of v) result out.new }
{
    put_signed64(out, at, i64::from(v))
}
