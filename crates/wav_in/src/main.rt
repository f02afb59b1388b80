// A WAV file on standard input becomes `x` lines on standard output, one a sample, as the replay program reads them behind a
// `cic` line. What is refused is answered by a line of `bad`, a tab and the number, which the replay refuses in its turn.
//
// A file's whole length is asked for before it is read, so a refused one gives its `bad` line alone. A pipe's is known only
// at its end: until then the header's data size is taken for it, and where the pipe ends before or goes on, `bad` is
// the last line, behind the lines of the samples that were there. No byte past the data size is taken for a sample. What a
// read brings is written before the next read; a read or a write that fails ends the program with its error and nothing further written, but
// a read that fails within the header is taken for the file's end, 90.

#![tactic(auto)]

ghost use Rattle.std.specs.Prelude.{◌≡◌, ◌≤◌, length};

use blocks::Refusal;
use std::io::Read;
use std::{fs, io};
use wav::header::{read_header, said_length};
use wav::samples::read_part;
use wav_lines::write_inputs;

fn refuse(rt: &impl Print, refusal: Refusal) -> io::Result<()> {
    let number = refusal.number();
    println!(rt; "bad\t{number}")
}

// The samples of some bytes as lines.
fn give(rt: &impl Print, bytes: &[u8], samples: &mut [i32], out: &mut [u8]) -> io::Result<()> {
    let count = read_part(bytes, samples).unwrap_or(0);
    let wrote = write_inputs(&samples[..count], out).unwrap_or(0);
    rt.write_all(&out[..wrote])
}

// The data, size bytes of it: what each read brings becomes lines before the next. A byte without its second is held at the
// buffer's front.
fn run(rt: &impl Print, input: &mut impl Read, size: u32) -> io::Result<()> {
    let mut bytes = [0u8; 32768];
    let mut samples = [0i32; 16384];
    let mut out = [0u8; 229376];
    let mut left = u64::from(size);
    let mut held: usize = 0;
    for _ in 0..u64::MAX {
        let n = input.read(&mut bytes[held..])?;
        if n == 0 {
            break;
        }
        let all = held + n;
        let wanted = left.min(all as u64) as usize;
        held = wanted % 2;
        let even = wanted - held;
        give(rt, &bytes[..even], &mut samples, &mut out)?;
        if wanted < all {
            // The input goes on past the data.
            return refuse(rt, Refusal::FileForm);
        }
        if held == 1 {
            bytes[0] = bytes[even];
        }
        left -= even as u64;
    }
    if 0 < left {
        return refuse(rt, Refusal::FileForm);
    }
    Ok(())
}

// Kept: from here to `main` the same as in wav_copy. Both read a file as the system gives it, of which no contract of a shared crate could tell.

// How long a file on standard input is from where it stands; for a pipe what its header says.
fn whole_length(from: Option<i64>, to: Option<i64>, head: &[u8]) -> u64 {
    match (from, to) {
        (Some(from), Some(to)) if 0 <= from && from <= to => from.abs_diff(to),
        _ => said_length(head),
    }
}

// Where a file on standard input stands: the system tells it behind `pos:` and a tab. A pipe stands at 0.
fn input_place(rt: &HostRuntime) -> Option<i64> {
    let told = fs::read_to_string(rt, "/proc/self/fdinfo/0").ok()?;
    told.lines().next()?.strip_prefix("pos:\t")?.parse().ok()
}

// Where a file on standard input ends, if it is a file.
fn input_end(rt: &HostRuntime) -> Option<i64> {
    let about = fs::metadata(rt, "/dev/stdin").ok()?;
    if about.is_file() {
        i64::try_from(about.len()).ok()
    } else {
        None
    }
}

// Reads until the header is full, the input ends or a read fails: how many bytes came, put at its front.
// Kept: `read_exact` tells nothing of how many came, and tries again where the system says that it was interrupted.
fn read_head(input: &mut impl Read, head: &mut [u8]) -> usize
    ensures { result ≤ length head.new }
{
    let mut done: usize = 0;
    while done < head.len() {
        let n = input.read(&mut head[done..]).unwrap_or(0);
        if n == 0 {
            break;
        }
        done += n;
    }
    done
}

fn main(rt: HostRuntime) -> io::Result<()> {
    let from = input_place(&rt);
    let to = input_end(&rt);
    let mut input = rt.stdin();
    let mut head = [0u8; 44];
    let n = read_head(&mut input, &mut head);
    let length = whole_length(from, to, &head[..n]);
    match read_header(&head[..n], length) {
        Err(refusal) => refuse(&rt, refusal),
        Ok(told) => run(&rt, &mut input, told.size),
    }
}
