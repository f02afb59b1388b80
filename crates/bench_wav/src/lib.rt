// What bench/wav links beside the Rust: a part of a recording read, and one written, over slices.

#![tactic(auto)]

ghost use Rattle.std.specs.Prelude.{◌≡◌};
ghost use Rattle.std.specs.Result.{result_unwrap_or};
ghost use Rattle.wav.specs.Samples.{read_part, read_slice, write_part, write_slice};

use wav::samples::{read_part, write_part};

// A part read: how many samples it gave, none where it was refused.
#[unsafe(no_mangle)]
pub extern "C" fn bench_read_part(bytes: &[u8], out: &mut [i32]) -> usize
    ensures { (result ≡ result_unwrap_or (read_part bytes.now out.old) 0)
        × (out.new ≡ read_slice bytes.now out.old) }
{
    read_part(bytes, out).unwrap_or(0)
}

// A part written: how many bytes it gave, none where it was refused.
#[unsafe(no_mangle)]
pub extern "C" fn bench_write_part(samples: &[i32], out: &mut [u8]) -> usize
    ensures { (result ≡ result_unwrap_or (write_part samples.now out.old) 0)
        × (out.new ≡ write_slice samples.now out.old) }
{
    write_part(samples, out).unwrap_or(0)
}
