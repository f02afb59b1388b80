// Stored answers: words of 8 lower-case hex digits, each followed by one byte, so that word i stands at byte 9 i; and
// what a comparison counts and prints.
ghost use Rattle.std.specs.Prelude.{◌≡◌, cond, ◌+◌, ◌*◌, ◌%◌, ◌^◌, ◌≤◌, length, eqb, IfOk};
ghost use Rattle.rust_answers.specs.Lines.{nibble_of, byte_at, half_at, word_at, words_at, unlike_all};

use std::io;

// The value of a hex digit; of any other byte 0.
fn nibble(b: u8) -> u32
    ensures { result ≡ nibble_of b }
{
    match b {
        b'0'..=b'9' => u32::from(b) - 48,
        b'a'..=b'f' => u32::from(b) - 87,
        _ => 0,
    }
}

#[tactic(auto, using(crate::proofs::Digits::nibble_small, crate::proofs::Digits::byte_small))]
fn byte_at(text: &[u8], at: usize) -> u32
    requires { at + 2 ≤ length text.now }
    ensures { result ≡ byte_at text.now at }
{
    nibble(text[at]) * 16 + nibble(text[at + 1])
}

#[tactic(auto, using(crate::proofs::Digits::byte_small, crate::proofs::Digits::half_small))]
fn half_at(text: &[u8], at: usize) -> u32
    requires { at + 4 ≤ length text.now }
    ensures { result ≡ half_at text.now at }
{
    byte_at(text, at) * 256 + byte_at(text, at + 2)
}

// Word number i of the text, from 0; 0 past its end.
#[tactic(auto, using(crate::proofs::Digits::half_small), unfolding(crate::specs::Lines::word_at))]
pub fn word(text: &[u8], i: usize) -> u32
    ensures { result ≡ word_at text.now i }
{
    if text.len() / 9 <= i {
        return 0;
    }
    let at = i * 9;
    half_at(text, at) * 65536 + half_at(text, at + 4)
}

// A line of the text: 40 words from word number first on, 0 past the text's end.
#[tactic(auto, unfolding(crate::specs::Lines::words_at))]
pub fn line(text: &[u8], first: u32) -> [u32; 40]
    ensures { result ≡ words_at text.now first 40 }
{
    let mut words = [0u32; 40];
    for i in 0..40 {
        words[i] = word(text, first as usize + i);
    }
    words
}

// A word as a count.
pub fn size(word: u32) -> usize
    ensures { result ≡ word }
{
    word as usize
}

// Two words as one number.
pub fn double(high: u32, low: u32) -> u64
    ensures { result ≡ high * 4294967296 + low }
{
    u64::from(high) * 4294967296 + u64::from(low)
}

// 0 where two numbers of two words are the same, else 1.
pub fn unlike_double(a: u64, b: u64) -> u64
    ensures { (result ≡ cond (eqb a b) 0 1) × (result ≤ 1) }
{
    u64::from(a != b)
}

// 0 where two words are the same, else 1.
pub fn unlike(a: u32, b: u32) -> u64
    ensures { (result ≡ cond (eqb a b) 0 1) × (result ≤ 1) }
{
    unlike_double(u64::from(a), u64::from(b))
}

// The count n, and one more where what was found is not what is said, modulo 2^64.
pub fn tally(n: u64, found: u32, said: u32) -> u64
    ensures { result ≡ (n + cond (eqb found said) 0 1) % 2 ^ 64 }
{
    n.wrapping_add(unlike(found, said))
}

// 0 where two slices have the same words, else 1.
#[tactic(auto, unfolding(crate::specs::Lines::unlike_all))]
pub fn unlike_words(a: &[u32], b: &[u32]) -> u64
    ensures { result ≡ unlike_all a.now b.now }
{
    if a.len() != b.len() {
        return 1;
    }
    for (i, &x) in a.iter().enumerate() {
        if x != b[i] {
            return 1;
        }
    }
    0
}

// Prints a line of a comparison: the name, how many cases there were, how many differ. True where none does.
pub fn report(rt: &impl Print, name: &[u8], cases: u64, differ: u64) -> io::Result<bool>
    ensures { IfOk result (λ same. same ≡ eqb differ 0) }
{
    rt.write_all(name)?;
    print!(rt; ": {cases} cases, {differ} differ\n")?;
    Ok(differ == 0)
}
