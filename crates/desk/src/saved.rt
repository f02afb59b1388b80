// A recorder's state as a line of text: `c`, 79 words and their check value, each as 16 hex digits, then the newline.
ghost use Rattle.std.specs.Prelude.{◌≡◌, ◌<◌, ◌≤◌, ◌+◌, pos, length};
ghost use Rattle.std.specs.Int.{w64};
ghost use Rattle.words.specs.Words.{wrap};
ghost use Rattle.desk.specs.Saved.{next_check, check_from, pattern_at, word_at, words_at, any_wrong, cells_at, state_loaded, load_of};

use blocks::Refusal;
use cic::state::Cic;
use recorder::recorder::Recorder;
use text::hex::hex_word;
use unwrap::unwrapper::Unwrapper;
use words::casts::u64_as_i64;
use words::unsigned::{add_u64, mul_u64};

// The check value one word on.
fn checked(check: u64, word: u64) -> u64
    ensures { result ≡ next_check check word }
{
    add_u64(mul_u64(check, 6364136223846793005), word)
}

// The pattern of word i of a line.
fn pattern_at(line: &[u8], i: usize) -> Option<u64>
    requires { (i < 80) × (length line.now ≡ 1282) }
    ensures { result ≡ pattern_at line.now i }
{
    let from = 16 * i + 1;
    let end = from + 16;
    hex_word(&line[from..end])
}

// Word i of a line; 0 where a digit is none.
fn word_at(line: &[u8], i: usize) -> u64
    requires { (i < 80) × (length line.now ≡ 1282) }
    ensures { result ≡ word_at line.now i }
{
    pattern_at(line, i).unwrap_or(0)
}

// The same read as signed.
fn signed_at(line: &[u8], i: usize) -> i64
    requires { (i < 80) × (length line.now ≡ 1282) }
    ensures { result ≡ wrap w64 (pos (word_at line.now i)) }
{
    u64_as_i64(word_at(line, i))
}

// Whether a digit of a line is none.
fn any_wrong(line: &[u8]) -> bool
    requires { length line.now ≡ 1282 }
    ensures { result ≡ any_wrong line.now 0 80 }
{
    for i in 0..80 {
        let Some(_) = pattern_at(line, i) else {
            return true;
        };
    }
    false
}

// The check value of a line's 79 words.
fn check_of(line: &[u8]) -> u64
    requires { length line.now ≡ 1282 }
    ensures { result ≡ check_from 1 (words_at line.now 0 79) }
{
    let mut c: u64 = 1;
    for i in 0..79 {
        c = checked(c, word_at(line, i));
    }
    c
}

// N words, the first at this place.
fn cells_of<const N: usize>(line: &[u8], from: usize) -> [i64; N]
    requires { (from + N ≤ 80) × (length line.now ≡ 1282) }
    ensures { result ≡ cells_at line.now from N }
{
    let mut cells = [0i64; N];
    for i in 0..N {
        cells[i] = signed_at(line, i + from);
    }
    cells
}

// The state that a line tells whose check value is right.
fn load_state(line: &[u8]) -> Result<Recorder, Refusal>
    requires { length line.now ≡ 1282 }
    ensures { result ≡ state_loaded line.now }
{
    let rate = word_at(line, 2);
    if 4294967295 < rate {
        return Err(Refusal::OutOfRange);
    }
    let countdown = word_at(line, 3);
    if 4294967295 < countdown {
        return Err(Refusal::OutOfRange);
    }
    let order = word_at(line, 0);
    let delay = word_at(line, 1);
    let inputs = word_at(line, 4);
    let hold = signed_at(line, 5);
    let y = signed_at(line, 6);
    let integrators = cells_of::<8>(line, 7);
    let combs = cells_of::<64>(line, 15);
    let filter = Cic::resume(
        order as usize,
        delay as usize,
        rate as u32,
        integrators,
        combs,
        hold,
        countdown as u32,
        inputs,
    )?;
    Ok(Recorder {
        plugged: true,
        turns: Unwrapper { y },
        filter,
    })
}

// The recorder that a line of 1282 bytes tells, its decimator resumed and the plug in. Refused with 72 where the line is of
// another length, 75 where a digit is none, 86 where the check value is another, 76 where
// rate or countdown is no u32, then as `Cic::resume` is.
pub fn load(line: &[u8]) -> Result<Recorder, Refusal>
    ensures { result ≡ load_of line.now }
{
    if line.len() != 1282 {
        return Err(Refusal::LongLine);
    }
    if line[1281] != b'\n' {
        return Err(Refusal::LongLine);
    }
    if any_wrong(line) {
        return Err(Refusal::Malformed);
    }
    if word_at(line, 79) != check_of(line) {
        return Err(Refusal::CheckValue);
    }
    load_state(line)
}
