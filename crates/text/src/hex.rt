// Sixteen hex digits, lower case, as a word of 64 bits.
ghost use Rattle.std.specs.Prelude.{◌≡◌};
ghost use Rattle.text.specs.Hex.{hex_digit, digit_of, pattern_of};

// The value of a digit; any other byte has none.
pub fn digit_of(byte: u8) -> Option<u64>
    ensures { result ≡ digit_of byte }
{
    match byte {
        b'0'..=b'9' => Some(u64::from(byte - b'0')),
        b'a'..=b'f' => Some(u64::from(byte - b'a') + 10),
        _ => None,
    }
}

// The value of a digit; of any other byte 16.
pub fn hex_digit(byte: u8) -> u64
    ensures { result ≡ hex_digit byte }
{
    match digit_of(byte) {
        Some(d) => d,
        None => 16,
    }
}

// The word that a field's sixteen digits give.
pub fn hex_word(field: &[u8]) -> Option<u64>
    ensures { result ≡ pattern_of field.now }
{
    if field.len() != 16 {
        return None;
    }
    let mut v: u64 = 0;
    for &byte in field {
        v = v * 16 + digit_of(byte)?;
    }
    Some(v)
}
