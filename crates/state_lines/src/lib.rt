// A recorder's state written as a line of text (docs/RECORDER.md): `c`, 79 words and their check value, each as 16 hex digits, then the newline:
// 1282 bytes. Callers cite `state_line` of specs/States; `SavedResumes` of specs/Laws says that a state that is saved can be resumed.

#![tactic(auto)]

ghost use Rattle.std.specs.Prelude.{◌≡◌, map, ◌+◌, ◌*◌, ◌≤◌, length};
ghost use Rattle.std.specs.Int.{w64};
ghost use Rattle.words.specs.Words.{word};
ghost use Rattle.text.specs.Writing.{Puts, Wrote};
ghost use Rattle.desk.specs.Saved.{next_check};
ghost use Rattle.hex_letters.specs.Letters.{letters_of};
ghost use Rattle.state_lines.specs.States.{head_words, state_line};
ghost use Rattle.state_lines.specs.Inner.{CellsPut, in_turn};

use hex_letters::letters;
use recorder::recorder::Recorder;
use text::writing::{put_byte, put_bytes};
use words::casts::{i64_as_u64, u64_as_i64};
use words::unsigned::{add_u64, mul_u64};

// The place behind words that were put, and the check value after them.
#[derive(Clone, Copy)]
pub struct WordsPut {
    pub next: usize,
    pub check: u64,
}

// A word's 16 digits.
fn put_word(out: &mut [u8], at: usize, word: u64) -> usize
    ensures { Puts out.old at (letters_of 16 word) result out.new }
{
    let digits = letters::<16>(word);
    put_bytes(out, at, &digits)
}

// The check value one word on.
fn checked(check: u64, word: u64) -> u64
    ensures { result ≡ next_check check word }
{
    add_u64(mul_u64(check, 6364136223846793005), word)
}

// Words, one behind the other, and the check value after them.
fn put_cells(out: &mut [u8], at: usize, cells: &[i64], check: u64) -> WordsPut
    requires { at + 16 * length cells.now ≤ length out.old }
    ensures { CellsPut out.old at cells.now check result out.new }
{
    let mut next = at;
    let mut c = check;
    let mut i: usize = 0;
    while i < cells.len() {
        let word = i64_as_u64(cells[i]);
        next = put_word(out, next, word);
        c = checked(c, word);
        i += 1;
    }
    WordsPut { next, check: c }
}

// The state's words before its cells.
fn head_of(r: Recorder) -> [i64; 7]
    ensures { map (word w64) result ≡ head_words r }
{
    let f = r.filter;
    let u = r.turns;
    [
        u64_as_i64(f.order as u64),
        u64_as_i64(f.delay as u64),
        u64_as_i64(f.rate as u64),
        u64_as_i64(f.countdown as u64),
        u64_as_i64(f.inputs),
        f.hold,
        u.y,
    ]
}

// `c`, three runs of words, their check value and the newline, where there is room for them.
fn put_line(out: &mut [u8], at: usize, head: &[i64], integrators: &[i64], combs: &[i64]) -> usize
    requires { at + (18 + 16 * (length head.now + (length integrators.now + length combs.now))) ≤ length out.old }
    ensures { Wrote out.old at (in_turn head.now integrators.now combs.now) result out.new }
{
    let first = put_byte(out, at, b'c');
    let a = put_cells(out, first, head, 1);
    let b = put_cells(out, a.next, integrators, a.check);
    let c = put_cells(out, b.next, combs, b.check);
    let end = put_word(out, c.next, c.check);
    put_byte(out, end, b'\n')
}

// The state's line at a place of out. Gives the next place; where there is no room it writes nothing and gives the place back.
pub fn put_state(r: Recorder, out: &mut [u8], at: usize) -> usize
    ensures { Puts out.old at (state_line r) result out.new }
{
    let n = out.len();
    if n < 1282 {
        return at;
    }
    if n - 1282 < at {
        return at;
    }
    let head = head_of(r);
    let f = r.filter;
    let integrators = f.integrators;
    let combs = f.combs;
    put_line(out, at, &head, &integrators, &combs)
}
