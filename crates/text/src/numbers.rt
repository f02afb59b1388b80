// Decimal numbers: no plus, no leading zero, no `-0`.
ghost use Rattle.std.specs.Prelude.{◌≡◌, ◌+◌, ◌*◌, ◌≤◌, min};
ghost use Rattle.text.specs.Numbers.{cap, capped_size, capped, digits_from, leading_of, number_of};

// A number's sign and size, where a size above 2^63 is given as 2^63 + 1.
#[derive(Clone, Copy, Debug, PartialEq, Eq)]
pub enum Number {
    Plus(u64),
    Minus(u64),
}

// The size with a digit more.
fn grown(v: u64, digit: u64) -> u64
    requires { digit ≤ 9 }
    ensures { result ≡ min (v * 10 + digit) cap }
{
    if v <= 922337203685477580 {
        v * 10 + digit
    } else {
        9223372036854775809
    }
}

// The size that digits give.
fn digits(s: &[u8]) -> Option<u64>
    ensures { result ≡ capped_size (digits_from 0 s.now) }
{
    let mut v: u64 = 0;
    for &b in s {
        if !b.is_ascii_digit() {
            return None;
        }
        v = grown(v, u64::from(b - b'0'));
    }
    Some(v)
}

// Digits that do not begin with 0.
#[tactic(auto, using(crate::proofs::Numerals::leading_none, crate::proofs::Numerals::leading_zero, crate::proofs::Numerals::leading_some))]
fn leading(s: &[u8]) -> Option<u64>
    ensures { result ≡ capped_size (leading_of s.now) }
{
    if s.len() == 0 {
        return None;
    }
    if s[0] == b'0' {
        return None;
    }
    digits(s)
}

// A field's number.
#[tactic(auto, using(crate::proofs::Numerals::fields))]
pub fn parsed(field: &[u8]) -> Option<Number>
    ensures { result ≡ capped (number_of field.now) }
{
    if field.len() == 0 {
        return None;
    }
    if field[0] == b'-' {
        let size = leading(&field[1..])?;
        return Some(Number::Minus(size));
    }
    if field.len() == 1 && field[0] == b'0' {
        return Some(Number::Plus(0));
    }
    let size = leading(field)?;
    Some(Number::Plus(size))
}
