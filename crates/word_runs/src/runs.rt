// Words in turn: lines of 18 bytes that are `w`, 16 hex digits (the word's number and the word) and the newline. Which number is next is known,
// so its digits are compared and not read.
ghost use Rattle.std.specs.Prelude.{◌≡◌, ◌++◌, ◌/◌, length, drop};
ghost use Rattle.text.specs.Hex.{hex_from};
ghost use Rattle.desk.specs.Lines.{record_of};
ghost use Rattle.hex_letters.specs.Letters.{letters_of};
ghost use Rattle.word_runs.specs.Runs.{word_in, next_number, run_of};
ghost use Rattle.word_runs.specs.Inner.{found_of, eight_of};

use hex_letters::{last_letter, letters};
use text::comparing::same_bytes;
use text::hex::digit_of;
use words::unsigned::add_u32;

// The next word, or anything else.
#[derive(Clone, Copy)]
pub enum Found {
    Word(i32),
    Other,
}

// The word that eight digits give.
#[tactic(auto, using(words::proofs::Std::casts))]
fn eight_digits(digits: &[u8]) -> Found
    requires { length digits.now ≡ 8 }
    ensures { result ≡ eight_of (hex_from 0 digits.now) }
{
    let mut v: u64 = 0;
    for &byte in digits {
        let Some(d) = digit_of(byte) else {
            return Found::Other;
        };
        v = v * 16 + d;
    }
    Found::Word((v as u32).cast_signed())
}

// A line that is the word with this number, of which `head` is the letters of the first seven digits.
fn word_in(line: &[u8], head: &[u8; 7], number: u32) -> Found
    requires { head.now ≡ letters_of 7 (number / 16) }
    ensures { result ≡ found_of (word_in number (record_of line.now)) }
{
    if line.len() != 18 {
        return Found::Other;
    }
    if line[17] != b'\n' {
        return Found::Other;
    }
    if line[0] != b'w' {
        return Found::Other;
    }
    if line[8] != last_letter(number as u64) {
        return Found::Other;
    }
    if !same_bytes(&line[1..8], head) {
        return Found::Other;
    }
    eight_digits(&line[9..17])
}

// The letters of the first seven digits of the number after n, from those of n.
fn next_head(head: [u8; 7], n: u32) -> [u8; 7]
    requires { head ≡ letters_of 7 (n / 16) }
    ensures { result ≡ letters_of 7 (next_number n / 16) }
{
    let next = add_u32(n, 1);
    if next % 16 == 0 {
        return letters::<7>((next / 16) as u64);
    }
    head
}

// The words in turn at the front of the input, the first with this number, as many as there are or as `words` has room for: to the front of
// `words`, the rest of which stays. Gives how many.
pub fn gather(input: &[u8], number: u32, words: &mut [i32]) -> usize
    ensures { (result ≡ length (run_of (length words.old) number input.now))
        × (words.new ≡ run_of (length words.old) number input.now ++ drop result words.old) }
{
    let mut head = letters::<7>((number / 16) as u64);
    let mut n = number;
    let mut at: usize = 0;
    let mut k: usize = 0;
    while k < words.len() {
        if input.len() - at < 18 {
            return k;
        }
        let end = at + 18;
        let found = word_in(&input[at..end], &head, n);
        let Found::Word(x) = found else {
            return k;
        };
        words[k] = x;
        head = next_head(head, n);
        n = add_u32(n, 1);
        at = end;
        k += 1;
    }
    k
}
