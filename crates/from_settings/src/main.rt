// From a store to filters: each record of a store of form 1 is made into its filter by `Cic::new` or `Wdf::from_form1`, which
// takes the retired adapters e and f, too, and the filter is given a step of 1000. Prints each record's name and the first
// output.

#![tactic(auto)]

use cic::state::Cic;
use entries::settings::{Entry, Kind};
use std::io;
use store_read::reading::read_form1;
use wdf::filter::Wdf;

// The first output of a filter of such numbers, 0 where they are refused.
fn first_decimated(order: u32, delay: u32, rate: u32) -> i32 {
    let Ok(made) = Cic::new(order as usize, delay as usize, rate) else {
        return 0;
    };
    let mut filter: Cic<i32> = made;
    match filter.decimate(1000) {
        Ok(Some(output)) => output.value,
        _ => 0,
    }
}

fn first_passed(sections: usize, architecture: u32, a: [i32; 8]) -> i32 {
    let mut filter = Wdf::from_form1(sections, architecture, a).unwrap_or(Wdf::EMPTY);
    filter.process(1000).unwrap_or(0)
}

fn print_line(rt: &impl Print, v: i32) -> io::Result<()> {
    println!(rt; "{v}")
}

fn run(rt: &impl Print, entry: Entry) -> io::Result<()> {
    let name = entry.name;
    let bytes = name.bytes;
    let len = name.len;
    if len <= 16 {
        rt.write_all(&bytes[..len])?;
    }
    rt.write_all(b"\t")?;
    let kind = entry.kind;
    let a = entry.a;
    match kind {
        Kind::Cic(order, delay, rate) => print_line(rt, first_decimated(order, delay, rate))?,
        Kind::Wdf(sections, architecture) => print_line(
            rt,
            first_passed(sections, architecture, a),
        )?,
        // A store of form 1 holds none.
        Kind::Dither(_) => {}
    }
    Ok(())
}

fn main(rt: HostRuntime) -> io::Result<()> {
    let read = read_form1(
        b"set\t1\ncic\tcrankshaft\t3\t1\t63\nwdf\thalfband\t2\ta1\t-1073741824\t536870912\nwdf\told\t1\te\t-1073741824\n",
    );
    let Ok(settings) = read else {
        return Ok(());
    };
    for entry in &settings.entries[..settings.count.min(64)] {
        run(&rt, *entry)?;
    }
    Ok(())
}
