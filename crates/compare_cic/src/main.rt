// Runs the proved decimator and interpolator over the Rust's stored answers (oracle/README.md, cic) and prints what differs: runs by steps
// and by blocks of drawn lengths (`runs`), questions and calls on a state (`lines`), each refusal at its boundary (`refusals`).
// Kept: compare_cic and compare_cic64 are twins but for `word`, which .ci/widen holds alike. One crate generic over the word was tried: each call of `Cic<W>` from another crate owes that
// a state of W has fewer than 2^63 bytes, and the proof didn't close.

#![tactic(auto)]

mod lines;
mod refusals;
mod runs;
mod word;

use crate::lines::compare_all;
use rust_answers::input::read_full;
use std::io;

fn main(rt: HostRuntime) -> io::Result<()> {
    let mut space = [0u8; 250000];
    let n = read_full(&mut rt.stdin(), &mut space)?;
    compare_all(&rt, &space[..n])
}
