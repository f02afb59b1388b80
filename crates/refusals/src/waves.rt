// Numbers 90 and 91, and 20 of the WAV calls.
use crate::print::{refused, row};
use std::io;
use wav::header::{read_header, write_header};
use wav::samples::{read_part, write_part};

fn asked(rate: u32, size: u32) -> u32 {
    let mut out = [0u8; 44];
    refused(write_header(rate, size, &mut out))
}

// The header of 48,000 samples a second and 4 bytes, read as that of a file of so many bytes.
fn told(length: u64) -> u32 {
    let mut head = [0u8; 44];
    let _ = write_header(48000, 4, &mut head);
    refused(read_header(&head, length))
}

fn part(bytes: &[u8]) -> u32 {
    let mut out = [0i32; 2];
    refused(read_part(bytes, &mut out))
}

fn sample(x: i32) -> u32 {
    let mut out = [0u8; 2];
    refused(write_part(&[x], &mut out))
}

fn print_headers(rt: &impl Print) -> io::Result<()> {
    row(
        rt,
        b"rate 2147483648 in a header",
        asked(2147483648, 0),
        b"2147483647",
        asked(2147483647, 0),
    )?;
    row(
        rt,
        b"data of 3 bytes in a header",
        asked(1, 3),
        b"of 4",
        asked(1, 4),
    )?;
    row(
        rt,
        b"data of 2147483002 bytes in a header",
        asked(1, 2147483002),
        b"of 2147483000",
        asked(1, 2147483000),
    )?;
    row(
        rt,
        b"data of 4 bytes in a file of 49",
        told(49),
        b"of 48",
        told(48),
    )
}

fn print_parts(rt: &impl Print) -> io::Result<()> {
    row(
        rt,
        b"a part of 3 bytes",
        part(b"abc"),
        b"of 4",
        part(b"abcd"),
    )?;
    row(
        rt,
        b"a part of 6 bytes into 2 samples",
        part(b"abcdef"),
        b"of 4",
        part(b"abcd"),
    )?;
    row(rt, b"sample 32768", sample(32768), b"32767", sample(32767))?;
    row(
        rt,
        b"sample -32769",
        sample(-32769),
        b"-32768",
        sample(-32768),
    )
}

pub(crate) fn print_all(rt: &impl Print) -> io::Result<()> {
    print_headers(rt)?;
    print_parts(rt)
}
