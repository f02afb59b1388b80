// RIFF WAVE headers and samples in parts, for C and Rust to link. Each call answers the number of its refusal, or 0, and is the one of the
// same name of the crate wav.

#![tactic(auto)]

ghost use Rattle.std.specs.Prelude.{◌≡◌};
ghost use Rattle.std.specs.Result.{result_unwrap_or};
ghost use Rattle.blocks.specs.Refusals.{number_in};
ghost use Rattle.capi_wav.specs.Calls.{recording, ReadsHeader, WritesHeader, ReadsPart, WritesPart};

use blocks::{Refusal, number};
use wav::header::{Recording, read_header, write_header};
use wav::samples::{read_part, write_part};

// A part's count to where it is asked for; at a refusal what stood there stays.
fn counted(part: Result<usize, Refusal>, count: &mut usize) -> u32
    ensures { (result ≡ number_in part) × (count.new ≡ result_unwrap_or part count.old) }
{
    *count = part.unwrap_or(*count);
    number(part)
}

// What the header at the front of bytes tells, of a file of this length.
#[unsafe(no_mangle)]
pub extern "C" fn mittenload_wav_read_header(
    bytes: &[u8],
    length: u64,
    rate: &mut u32,
    size: &mut u32,
) -> u32
    ensures { ReadsHeader bytes.now length (recording rate.old size.old)
        (recording rate.new size.new) result }
{
    let head = read_header(bytes, length);
    let old = Recording {
        rate: *rate,
        size: *size,
    };
    let told = head.unwrap_or(old);
    *rate = told.rate;
    *size = told.size;
    number(head)
}

// A header to the front of out.
#[unsafe(no_mangle)]
pub extern "C" fn mittenload_wav_write_header(rate: u32, size: u32, out: &mut [u8]) -> u32
    ensures { WritesHeader rate size out.old out.new result }
{
    number(write_header(rate, size, out))
}

// The samples of a part to the front of out; how many, to count.
#[unsafe(no_mangle)]
pub extern "C" fn mittenload_wav_read_part(bytes: &[u8], out: &mut [i32], count: &mut usize) -> u32
    ensures { ReadsPart bytes.now out.old count.old out.new count.new result }
{
    counted(read_part(bytes, out), count)
}

// The bytes of a part to the front of out; how many, to count.
#[unsafe(no_mangle)]
pub extern "C" fn mittenload_wav_write_part(
    samples: &[i32],
    out: &mut [u8],
    count: &mut usize,
) -> u32
    ensures { WritesPart samples.now out.old count.old out.new count.new result }
{
    counted(write_part(samples, out), count)
}
