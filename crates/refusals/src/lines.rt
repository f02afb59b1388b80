// Numbers 71 to 77: lines of the replay program, before and after a `cic` line.
use crate::print::row;
use cic::state::Cic;
use playback::driver::replay_whole;
use records::session::{Reply, Session, take_line};
use std::io;
use text::comparing::same_bytes;

// A line's refusal where `cic 1 1 1` came first, or didn't.
fn line(opened: bool, line: &[u8]) -> u32 {
    let session = Session {
        opened,
        wide: false,
        filter: Cic::new(1, 1, 1).unwrap_or(Cic::blank()),
    };
    let taken = take_line(session, line);
    let reply = taken.reply;
    match reply {
        Reply::Silent => 0,
        Reply::Output(_) => 0,
        Reply::Bad(fault) => fault.number,
    }
}

// Whether the first n bytes of a slice are these.
fn front_is(out: &[u8], n: usize, want: &[u8]) -> bool {
    if out.len() < n {
        return false;
    }
    same_bytes(&out[0..n], want)
}

// 77 where the replay of an input of one line, written to out, ends so; else 0.
fn unterminated(input: &[u8], out: &mut [u8]) -> u32 {
    let count = replay_whole(input, out).unwrap_or(0);
    if front_is(out, count, b"bad\t1\t77\t0\n") {
        77
    } else {
        0
    }
}

fn print_opening(rt: &impl Print) -> io::Result<()> {
    row(
        rt,
        b"'x 3' before a cic line",
        line(false, b"x\t3"),
        b"after one",
        line(true, b"x\t3"),
    )?;
    row(
        rt,
        b"a second 'cic 1 1 1'",
        line(true, b"cic\t1\t1\t1"),
        b"the first",
        line(false, b"cic\t1\t1\t1"),
    )
}

fn print_long(rt: &impl Print) -> io::Result<()> {
    let long = [b'x'; 65];
    row(
        rt,
        b"65 bytes",
        line(true, &long),
        b"64 bytes",
        line(true, &long[..64]),
    )
}

fn print_fields(rt: &impl Print) -> io::Result<()> {
    row(
        rt,
        b"line 'X 3'",
        line(true, b"X\t3"),
        b"'x 3'",
        line(true, b"x\t3"),
    )?;
    row(
        rt,
        b"line 'rate'",
        line(true, b"rate"),
        b"'rate 3'",
        line(true, b"rate\t3"),
    )?;
    row(
        rt,
        b"line 'x 03'",
        line(true, b"x\t03"),
        b"'x 3'",
        line(true, b"x\t3"),
    )?;
    row(
        rt,
        b"line 'x 2147483648'",
        line(true, b"x\t2147483648"),
        b"'x 2147483647'",
        line(true, b"x\t2147483647"),
    )
}

// A last line without its newline.
fn print_last(rt: &impl Print) -> io::Result<()> {
    let mut cut = [0u8; 600];
    let mut whole = [0u8; 600];
    row(
        rt,
        b"'cic 1 1 1' without a newline",
        unterminated(b"cic\t1\t1\t1", &mut cut),
        b"with one",
        unterminated(b"cic\t1\t1\t1\n", &mut whole),
    )
}

pub(crate) fn print_all(rt: &impl Print) -> io::Result<()> {
    print_opening(rt)?;
    print_long(rt)?;
    print_fields(rt)?;
    print_last(rt)
}
