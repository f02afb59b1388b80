// The example of README.md: a filter of order 3 at R = 4 runs, the encoder's plug is pulled and pushed back, the rate
// is set anew, and of each block since then the outputs that may be believed are counted, and the encoder sample is named
// that the first of them stands for.

#![tactic(auto)]

use blocks::Refusal;
use cic::runs::settled;
use cic::state::Cic;
use std::io;

// What may be believed of a block's outputs: how many, and the number of the first one's sample.
#[derive(Clone, Copy)]
struct Believed {
    outputs: usize,
    sample: u64,
}

// The sample of the output that comes `told` outputs after that of sample `first`: R = rate + 1 samples each.
fn believed_sample(first: u64, told: usize, rate: u32) -> u64 {
    first.wrapping_add((told as u64).wrapping_mul(u64::from(rate) + 1))
}

// Decimates a block. The outputs that may be believed stand in out behind those that may not.
fn decimate(filter: &mut Cic<i32>, input: &[i32], out: &mut [i32]) -> Result<Believed, Refusal> {
    let written = filter.decimate_block(input, out)?;
    let part = settled(out, written.count, written.told)?;
    Ok(Believed {
        outputs: part.len(),
        sample: believed_sample(written.number, written.told, filter.rate()),
    })
}

// Two blocks after the plug is back in: what may be believed of each.
fn run() -> Result<(Believed, Believed), Refusal> {
    let mut filter: Cic<i32> = Cic::new(3, 1, 3)?;
    // What came before the plug was pulled.
    filter.decimate(1000)?;
    // The plug is back in.
    let rate = filter.rate();
    filter.set_rate(rate)?;
    // The samples since then: 28 of them give 7 outputs, of which the first N·M = 3 are not to be believed.
    let samples = [7i32; 28];
    let mut out = [0i32; 28];
    let first = decimate(&mut filter, &samples, &mut out)?;
    // The next block goes on from the state that this one left.
    let second = decimate(&mut filter, &samples, &mut out)?;
    Ok((first, second))
}

fn tell(rt: &impl Print, block: Believed) -> io::Result<()> {
    let outputs = block.outputs;
    let sample = block.sample;
    println!(rt; "{outputs} outputs may be believed, from sample {sample} on")
}

fn main(rt: HostRuntime) -> io::Result<()> {
    match run() {
        Ok(blocks) => {
            tell(&rt, blocks.0)?;
            tell(&rt, blocks.1)
        }
        Err(refusal) => {
            let number = refusal.number();
            println!(rt; "refused by number {number}")
        }
    }
}
