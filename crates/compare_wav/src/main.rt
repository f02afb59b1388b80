// Headers that sox wrote, each 44 bytes and its file's length in four more, read: what each tells, or its refusal; and the same with
// a length of one more. The first two are of 16 bits and one channel; the others are of 24 and 32 bits, float, stereo, 8 bits, u-law and
// big-endian (oracle/sox.py).

#![tactic(auto)]

ghost use Rattle.std.specs.Prelude.{◌≡◌, ◌≤◌, length, IfOk};

use blocks::Refusal;
use std::io;
use std::io::Read;
use wav::header::{Recording, read_header};

fn print(rt: &impl Print, head: Result<Recording, Refusal>) -> io::Result<()> {
    match head {
        Ok(told) => {
            let rate = told.rate;
            let size = told.size;
            print!(rt; "rate {rate}, size {size}")
        }
        Err(refusal) => rt.print(refusal.number()),
    }
}

// Reads until buf is full or the input ends: how many bytes came, put at the start of buf.
// Kept: an end within it is no error here, as it is one of `read_exact`.
fn read_full(input: &mut impl Read, buf: &mut [u8]) -> io::Result<usize>
    ensures count { IfOk result (λ n. n ≤ length buf.new) }
    ensures size { length buf.new ≡ length buf.old }
{
    let mut done: usize = 0;
    while done < buf.len() {
        let n = input.read(&mut buf[done..])?;
        if n == 0 {
            break;
        }
        done += n;
    }
    Ok(done)
}

// The next header, whether there is one.
fn next(rt: &impl Print, input: &mut impl Read) -> io::Result<bool> {
    let mut head = [0u8; 44];
    let mut bytes = [0u8; 4];
    read_full(input, &mut head)?;
    if read_full(input, &mut bytes)? < 4 {
        return Ok(false);
    }
    let length = u64::from(u32::from_le_bytes(bytes));
    print(rt, read_header(&head, length))?;
    print!(rt; "; one byte longer, ")?;
    print(rt, read_header(&head, length + 1))?;
    println!(rt; "")?;
    Ok(true)
}

fn main(rt: HostRuntime) -> io::Result<()> {
    let mut input = rt.stdin();
    for _ in 0..100 {
        if !next(&rt, &mut input)? {
            break;
        }
    }
    Ok(())
}
