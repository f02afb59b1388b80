// Refusals: each number at its boundary, and a neighbour that is accepted.
use crate::lines::fitted;
use crate::runs::state;
use crate::word::Word;
use blocks::Refusal;
use cic::runs::settled;
use cic::state::Cic;
use rust_answers::lines::{report, tally};
use std::io;

// The number of an answer's refusal, 0 for none.
fn number<T: Copy>(answer: Result<T, Refusal>) -> u32 {
    match answer {
        Ok(_) => 0,
        Err(r) => r.number(),
    }
}

fn made(order: usize, delay: usize, rate: u32) -> u32 {
    let answer: Result<Cic<Word>, Refusal> = Cic::new(order, delay, rate);
    number(answer)
}

fn makers() -> u64 {
    let mut n: u64 = 0;
    n = tally(n, made(8, 1, 0), 0);
    n = tally(n, made(9, 1, 0), 10);
    n = tally(n, made(0, 0, 0), 11);
    n = tally(n, made(0, 8, 0), 0);
    n = tally(n, made(0, 9, 0), 11);
    n = tally(n, made(0, 1, 65535), 0);
    n = tally(n, made(0, 1, 65536), 12);
    n = tally(n, made(9, 0, 65536), 10);
    n = tally(n, made(8, 9, 65536), 11);
    n
}

fn resumed(countdown: u32) -> u32 {
    let answer: Result<Cic<Word>, Refusal> = Cic::resume(1, 1, 1, [0; 8], [0; 64], 0, countdown, 0);
    number(answer)
}

fn cleared(delay: usize, countdown: u32, unsettled: usize) -> u32 {
    let mut s: Cic<Word> = state(2, delay, 0, countdown, unsettled);
    number(s.clear())
}

fn rate_set(countdown: u32, unsettled: usize, rate: u32) -> u32 {
    let mut s: Cic<Word> = state(1, 1, 0, countdown, unsettled);
    number(s.set_rate(rate))
}

fn state_calls() -> u64 {
    let mut n: u64 = 0;
    n = tally(n, resumed(65535), 0);
    n = tally(n, resumed(65536), 13);
    n = tally(n, cleared(3, 0, 6), 0);
    n = tally(n, cleared(3, 0, 7), 15);
    n = tally(n, cleared(3, 65536, 7), 13);
    n = tally(n, rate_set(65535, 0, 65535), 0);
    n = tally(n, rate_set(0, 0, 65536), 12);
    n = tally(n, rate_set(65536, 9, 65536), 12);
    n
}

fn gained(rate: u32, unsettled: usize) -> u32 {
    let s: Cic<Word> = state(7, 1, rate, 0, unsettled);
    number(s.gain())
}

fn fit_of(order: usize, rate: u32, width: u32, b: u32) -> u32 {
    let s: Cic<Word> = state(order, 1, rate, 0, 0);
    fitted(s.fit(width, b))
}

fn asked() -> u64 {
    let mut n: u64 = 0;
    n = tally(n, gained(510, 0), 0);
    n = tally(n, gained(511, 0), 14);
    n = tally(n, gained(511, 8), 14);
    n = tally(n, gained(510, 8), 15);
    n = tally(n, fit_of(1, 0, 32, 0), 17);
    n = tally(n, fit_of(1, 0, 32, 32), 1);
    n = tally(n, fit_of(1, 0, 32, 33), 17);
    n = tally(n, fit_of(1, 0, 64, 0), 17);
    n = tally(n, fit_of(1, 0, 64, 64), 1);
    n = tally(n, fit_of(1, 0, 64, 65), 17);
    n = tally(n, fit_of(1, 0, 33, 1), 17);
    n = tally(n, fit_of(1, 0, 63, 1), 17);
    n = tally(n, fit_of(3, 4, 32, 25), 1);
    n = tally(n, fit_of(3, 4, 32, 26), 0);
    n = tally(n, fit_of(3, 4, 64, 57), 1);
    n = tally(n, fit_of(3, 4, 64, 58), 0);
    n = tally(n, fit_of(7, 511, 64, 1), 1);
    n = tally(n, fit_of(4, 65535, 64, 1), 0);
    n
}

fn decimated(first: Cic<Word>) -> u32 {
    let mut s = first;
    number(s.decimate(1))
}

fn interpolated(countdown: u32, sample: Option<Word>) -> u32 {
    let mut s: Cic<Word> = state(1, 1, 1, countdown, 0);
    number(s.interpolate(sample))
}

fn single_steps() -> u64 {
    let mut n: u64 = 0;
    n = tally(n, decimated(state(8, 8, 65535, 65535, 64)), 0);
    n = tally(n, decimated(state(9, 1, 0, 0, 0)), 10);
    n = tally(n, interpolated(0, Some(1)), 0);
    n = tally(n, interpolated(1, Some(1)), 21);
    n = tally(n, interpolated(1, None), 0);
    n = tally(n, interpolated(0, None), 22);
    n
}

fn block_down(input: &[Word], out: &mut [Word]) -> u32 {
    let mut s: Cic<Word> = state(1, 1, 0, 0, 0);
    number(s.decimate_block(input, out))
}

fn block_up(input: &[Word], out: &mut [Word]) -> u32 {
    let mut s: Cic<Word> = state(1, 1, 1, 0, 0);
    number(s.interpolate_block(input, out))
}

fn settled_of(out: &[Word], written: usize) -> u32 {
    match settled(out, written, 0) {
        Ok(_) => 0,
        Err(r) => r.number(),
    }
}

fn lent_slices() -> u64 {
    let two: [Word; 2] = [1; 2];
    let one: [Word; 1] = [1; 1];
    let mut out: [Word; 1] = [0; 1];
    let mut three: [Word; 3] = [0; 3];
    let mut n: u64 = 0;
    n = tally(n, block_down(&one, &mut out), 0);
    n = tally(n, block_down(&two, &mut out), 20);
    n = tally(n, block_up(&one, &mut out), 0);
    n = tally(n, block_up(&one, &mut three), 23);
    n = tally(n, settled_of(&one, 1), 0);
    n = tally(n, settled_of(&one, 2), 20);
    n
}

pub(crate) fn compare_refusals(rt: &impl Print) -> io::Result<()> {
    report(rt, b"refusals of the makers", 9, makers())?;
    report(rt, b"refusals of state calls", 8, state_calls())?;
    report(rt, b"refusals of questions", 18, asked())?;
    report(rt, b"refusals of steps", 6, single_steps())?;
    report(
        rt,
        b"refusals of blocks and of the settled part",
        6,
        lent_slices(),
    )?;
    Ok(())
}
