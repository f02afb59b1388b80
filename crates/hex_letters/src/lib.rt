// A number's hex digits as letters, lower case, the first first: what `hex_word` of crate text reads.
// Callers cite `letters_of` of specs/Letters; proofs/Spelling has the laws: the digits of a number read as it, and no others do.

#![tactic(auto)]

ghost use Rattle.std.specs.Prelude.{◌≡◌, ◌%◌};
ghost use Rattle.hex_letters.specs.Letters.{letter_of, letters_of};

// The bytes of the digit 0 and of the letter a.
const ZERO: u64 = b'0' as u64;

const A: u64 = b'a' as u64;

// The letter of a number's last digit.
#[tactic(auto, unfolding(crate::specs::Letters::letter_of))]
pub fn last_letter(n: u64) -> u8
    ensures { result ≡ letter_of (n % 16) }
{
    let d = n % 16;
    if d < 10 {
        return (ZERO + d) as u8;
    }
    (A + (d - 10)) as u8
}

// The letters of a number's last N digits.
pub fn letters<const N: usize>(n: u64) -> [u8; N]
    ensures { result ≡ letters_of N n }
{
    let mut letters = [0u8; N];
    let mut left = n;
    for i in (0..N).rev() {
        letters[i] = last_letter(left);
        left = left / 16;
    }
    letters
}
