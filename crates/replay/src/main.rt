// The replay program (document 01): records from standard input, answers to standard output. What it works out is the
// library's (crates/playback); here are the reads and the writes. What a read brings is answered before the next read.
// A read or a write that fails ends the program with its error, and nothing further is written.

#![tactic(auto)]

ghost use Rattle.std.specs.Prelude.{◌≡◌, ◌≤◌, length};
ghost use Rattle.playback.specs.Places.{place_of, replay_of, fed_of, bytes_of};

use playback::driver::Replay;
use std::io;
use std::io::Read;

// What a read brought: a part after which to read on, one after which a refusal has ended the replay, or the end of the input.
#[derive(Clone, Copy, Debug, PartialEq, Eq)]
enum Turn {
    More,
    Stopped,
    Over,
}

// A part of at most 65,536 bytes, for which there is room: how many bytes it gives out.
fn take(r: &mut Replay, part: &[u8], out: &mut [u8]) -> usize
    requires { (length part.now ≤ 65536) × (459244 ≤ length out.old) }
    ensures { (r.new ≡ replay_of (fed_of (place_of r.old) part.now))
        × (result ≡ length (bytes_of (place_of r.old) part.now)) × (result ≤ length out.new) }
{
    match r.feed(part, out) {
        Ok(n) => n,
        Err(_) => 0,
    }
}

// One read, and what it gives out.
fn pump(
    rt: &impl Print,
    input: &mut impl Read,
    r: &mut Replay,
    buffer: &mut [u8],
    out: &mut [u8],
) -> io::Result<Turn>
    requires { (length buffer.old ≤ 65536) × (459244 ≤ length out.old) }
{
    let n = input.read(buffer)?;
    if n == 0 {
        return Ok(Turn::Over);
    }
    let w = take(r, &buffer[..n], out);
    rt.write_all(&out[..w])?;
    if r.going {
        Ok(Turn::More)
    } else {
        Ok(Turn::Stopped)
    }
}

// What the end of the input gives out.
fn end(rt: &impl Print, r: Replay, out: &mut [u8]) -> io::Result<()> {
    match r.finish(out) {
        Ok(n) => rt.write_all(&out[..n]),
        Err(_) => Ok(()),
    }
}

// The whole input, read by read. A proved loop ends, and nothing says that the input does: the turns are counted up to a
// number that no input uses up.
fn replay_input(
    rt: &impl Print,
    input: &mut impl Read,
    buffer: &mut [u8],
    out: &mut [u8],
) -> io::Result<()>
    requires { (length buffer.old ≤ 65536) × (459244 ≤ length out.old) }
{
    let mut r = Replay::start();
    for _ in 0..u64::MAX {
        match pump(rt, input, &mut r, buffer, out)? {
            Turn::More => {}
            Turn::Stopped => return Ok(()),
            Turn::Over => return end(rt, r, out),
        }
    }
    Ok(())
}

fn main(rt: HostRuntime) -> io::Result<()> {
    let mut buffer = [0u8; 65536];
    let mut out = [0u8; 459244];
    replay_input(&rt, &mut rt.stdin(), &mut buffer, &mut out)
}
