// Reads a recording in the replay's records from standard input, gives the samples of its `x` lines to the plain engine
// and to the decimator of order 3, M = 1, R = 64, and prints the outputs that differ and how many there are. Once as
// recorded and once times 3,000,000, where sums wrap; each time by steps, by blocks, and by blocks beside steps.

#![tactic(auto)]

mod decimator;
mod engine;

ghost use Rattle.std.specs.Prelude.{◌≡◌, ◌≤◌, length, IfOk};

use records::parse::{Record, parse};
use std::io;
use std::io::Read;
use text::parts::part_end;

// Where the line that starts at from ends.
fn line_end(text: &[u8], from: usize) -> usize
    requires { from ≤ length text.now }
    ensures { (from ≤ result) × (result ≤ length text.now) }
{
    let end = part_end(text, from, b'\n');
    if text.len() < end {
        return text.len();
    }
    end
}

// A line's sample modulo 2^32, if it has one and there is room, to place n of xs: how many there are then.
fn take_line(line: &[u8], xs: &mut [i32], n: usize) -> usize {
    let record = parse(true, line);
    let Record::Sample(x) = record else {
        return n;
    };
    if xs.len() <= n {
        return n;
    }
    xs[n] = ((x.cast_unsigned() % 0x1_0000_0000) as u32).cast_signed();
    n + 1
}

// The samples of a text's `x` lines to the front of xs: how many.
fn take_text(text: &[u8], xs: &mut [i32]) -> usize {
    let mut n: usize = 0;
    let mut from: usize = 0;
    while from < text.len() {
        let end = line_end(text, from);
        n = take_line(&text[from..end], xs, n);
        from = end + 1;
    }
    n
}

// Each sample times 3,000,000, modulo 2^32.
fn enlarge(xs: &mut [i32]) {
    for x in xs {
        *x = x.wrapping_mul(3000000);
    }
}

// Prints output number k of both.
fn print_pair(rt: &impl Print, k: usize, y: i32, z: i32) -> io::Result<()> {
    println!(rt; "output {k}: engine {y}, decimator {z}")
}

// Prints the outputs that differ: how many do.
fn print_unlike(rt: &impl Print, ys: &[i32], zs: &[i32]) -> io::Result<u64> {
    let mut differ: u64 = 0;
    for (k, &y) in ys.iter().enumerate() {
        if zs.len() <= k {
            return Ok(differ);
        }
        if y != zs[k] {
            print_pair(rt, k, y, zs[k])?;
            differ = differ.wrapping_add(1);
        }
    }
    Ok(differ)
}

// What was given: ys are n outputs of the engine and zs m of the decimator, zeros behind them.
fn compare(
    rt: &impl Print,
    name: &[u8],
    ys: &[i32],
    n: usize,
    zs: &[i32],
    m: usize,
) -> io::Result<()> {
    let differ = print_unlike(rt, ys, zs)?;
    rt.write_all(name)?;
    println!(rt; ": engine {n} outputs, decimator {m}, {differ} differ")
}

// The three comparisons over the samples.
fn compare_all(rt: &impl Print, xs: &[i32]) -> io::Result<()> {
    let mut ys = [0i32; 1024];
    let mut zs = [0i32; 1024];
    let mut blocks = [0i32; 1024];
    let n = engine::give_steps(xs, &mut ys);
    let m = decimator::give_steps(xs, &mut zs);
    compare(rt, b"steps", &ys, n, &zs, m)?;
    let k = engine::give_block(xs, &mut blocks);
    compare(rt, b"a block beside steps", &blocks, k, &zs, m)?;
    let mut last = [0i32; 1024];
    let l = decimator::give_block(xs, &mut last);
    compare(rt, b"blocks", &blocks, k, &last, l)
}

// Those over the first n of xs.
fn compare_first(rt: &impl Print, xs: &[i32], n: usize) -> io::Result<()> {
    if xs.len() < n {
        return Ok(());
    }
    compare_all(rt, &xs[..n])
}

// Reads until buf is full or the input ends: how many bytes came, put at the start of buf.
fn read_full(input: &mut impl Read, buf: &mut [u8]) -> io::Result<usize>
    ensures count { IfOk result (λ n. n ≤ length buf.new) }
    ensures size { length buf.new ≡ length buf.old }
{
    let mut done: usize = 0;
    while done < buf.len() {
        let n = input.read(&mut buf[done..])?;
        if n == 0 {
            break;
        }
        done += n;
    }
    Ok(done)
}

fn main(rt: HostRuntime) -> io::Result<()> {
    let mut space = [0u8; 65536];
    let read = read_full(&mut rt.stdin(), &mut space)?;
    let mut xs = [0i32; 65536];
    let n = take_text(&space[..read], &mut xs);
    compare_first(&rt, &xs, n)?;
    enlarge(&mut xs);
    rt.write_all(b"times 3000000\n")?;
    compare_first(&rt, &xs, n)
}
