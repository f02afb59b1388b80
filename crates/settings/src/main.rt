// The bench's program for settings stores (document 02, A7 and A12): a store on standard input. With no argument or with
// `check` it answers `ok`, the form and the count of records, or `bad`, line number from 1 and refusal number, parted by
// tabs. With `copy` it writes the store that it read, byte for byte the same, or that `bad` line. Both take either form.
// With `forth` it writes a store of form 1 as one of form 2, with `back` a store of form 2 as one of form 1, or a `bad`
// line alone, with line 0 where no line is to blame. Any other argument is told on standard error which there are.
//
// Of a longer input the first 16,384 bytes are taken: line 66 ends within the first 10,471 or is too long, and no line
// behind it is looked at. `checked`, `copied` and `move_answer` of specs/Answers say what is written; here are the reads
// and the writes. A read that fails ends the program with its error and nothing written.

#![tactic(auto)]

mod answers;

ghost use Rattle.std.specs.Prelude.{◌≤◌, length, IfOk};

use answers::{put_back, put_checked, put_copied, put_forth};
use std::env::FillError;
use std::io;
use std::io::Read;
use std::rt::Env;
use text::comparing::same_bytes;

// Reads until the buffer is full or the input ends: how many bytes came, put at the start of the buffer.
fn take_all(input: &mut impl Read, text: &mut [u8]) -> io::Result<usize>
    ensures { IfOk result (λ n. n ≤ length text.new) }
{
    let mut len: usize = 0;
    while len < text.len() {
        let n = input.read(&mut text[len..])?;
        if n == 0 {
            break;
        }
        len += n;
    }
    Ok(len)
}

// What the first argument asks for.
#[derive(Drop)]
enum Asked {
    Check,
    Copy,
    Forth,
    Back,
    Unknown,
}

fn first_argument(rt: &impl Env) -> Asked {
    let mut word = [0u8; 8];
    let n = match rt.arg(1, &mut word) {
        Ok(n) => n,
        Err(FillError::NotPresent) => return Asked::Check,
        Err(FillError::TooLong) => return Asked::Unknown,
    };
    if same_bytes(&word[..n], b"check") {
        return Asked::Check;
    }
    if same_bytes(&word[..n], b"copy") {
        return Asked::Copy;
    }
    if same_bytes(&word[..n], b"forth") {
        return Asked::Forth;
    }
    if same_bytes(&word[..n], b"back") {
        return Asked::Back;
    }
    Asked::Unknown
}

// Writes what is asked for.
fn answer(
    rt: &(impl Print + Eprint),
    question: Asked,
    text: &[u8],
    out: &mut [u8],
) -> io::Result<()>
    requires { (36 ≤ length out.old) × (length text.now ≤ length out.old) }
{
    match question {
        Asked::Check => {
            let n = put_checked(text, out);
            rt.write_all(&out[..n])
        }
        Asked::Copy => {
            let n = put_copied(text, out);
            rt.write_all(&out[..n])
        }
        Asked::Forth => {
            let n = put_forth(text, out);
            rt.write_all(&out[..n])
        }
        Asked::Back => {
            let n = put_back(text, out);
            rt.write_all(&out[..n])
        }
        Asked::Unknown => eprintln!(rt; "settings, settings check, copy, forth or back"),
    }
}

fn main(rt: HostRuntime) -> io::Result<()> {
    let mut text = [0u8; 16384];
    let mut out = [0u8; 16384];
    let question = first_argument(&rt);
    let len = take_all(&mut rt.stdin(), &mut text)?;
    answer(&rt, question, &text[..len], &mut out)
}
