// Lines of the table.
use std::io;

// The number of a call's refusal, 0 for none.
pub(crate) use blocks::number as refused;

pub(crate) fn text(rt: &impl Print, s: &[u8]) -> io::Result<()> {
    rt.write_all(s)
}

pub(crate) fn number(rt: &impl Print, n: u64) -> io::Result<()> {
    rt.print(n)
}

pub(crate) fn signed(rt: &impl Print, v: i32) -> io::Result<()> {
    rt.print(v)
}

fn outcome(rt: &impl Print, call: &[u8], refused: u32) -> io::Result<()> {
    text(rt, call)?;
    if refused == 0 {
        return text(rt, b" is accepted");
    }
    text(rt, b" is ")?;
    number(rt, refused as u64)
}

// A call and its refusal, 0 for none, then a neighbour and its.
pub(crate) fn row(
    rt: &impl Print,
    call: &[u8],
    refused: u32,
    neighbour: &[u8],
    other: u32,
) -> io::Result<()> {
    outcome(rt, call, refused)?;
    text(rt, b", ")?;
    outcome(rt, neighbour, other)?;
    text(rt, b"\n")
}
