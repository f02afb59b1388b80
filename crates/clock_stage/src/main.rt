// The modulator's outputs over given inputs (02, A14), for samples/noise.py. Standard input is words as oracle/README.md has
// them: for each run the order, the number of inputs, and the inputs. Each run starts from zero; a line is an output and
// the last accumulator after it.

#![tactic(auto)]

ghost use Rattle.std.specs.Prelude.{◌+◌, ◌<◌, ◌≤◌, IfOk};

use dsm::Dsm;
use rust_answers::input::read_full;
use rust_answers::lines::word;
use std::io;

// A step: its output, or that it was refused, and the last accumulator in use, or 0 where there is none.
fn step(rt: &impl Print, modulator: &mut Dsm, x: u32) -> io::Result<()> {
    let out = modulator.process(x);
    let last = match modulator.order {
        1..=8 => modulator.accumulators[modulator.order - 1],
        _ => 0,
    };
    match out {
        Ok(y) => println!(rt; "{y} {last}"),
        Err(_) => println!(rt; "refused {last}"),
    }
}

// The run that starts at word number at: gives the number of the word after it.
fn run(rt: &impl Print, text: &[u8], at: usize) -> io::Result<usize>
    requires { at < 65536 }
    ensures { IfOk result (λ next. (at < next) × (next ≤ at + 4294967297)) }
{
    // An order above 8 runs as 0 does.
    let mut modulator = Dsm::new(word(text, at) as usize).unwrap_or(Dsm::IDLE);
    let first = at + 2;
    let count = word(text, at + 1) as usize;
    for i in 0..count {
        step(rt, &mut modulator, word(text, first + i))?;
    }
    Ok(first + count)
}

fn main(rt: HostRuntime) -> io::Result<()> {
    let mut space = [0u8; 200000];
    let n = read_full(&mut rt.stdin(), &mut space)?;
    let text = &space[..n];
    let words = text.len() / 9;
    let mut at: usize = 0;
    // Kept: a run is as long as its second word says, so `at` moves by more than one.
    while at < words {
        if at < 65536 {
            at = run(&rt, text, at)?;
        } else {
            at = words;
        }
    }
    Ok(())
}
