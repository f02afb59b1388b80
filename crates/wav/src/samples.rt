// Samples in parts: a recording is larger than memory.
ghost use Rattle.std.specs.Prelude.{◌≡◌, ◌++◌, ◌*◌, ◌/◌, ◌≤◌, length, drop, IsTrue};
ghost use Rattle.std.specs.Int.{w16};
ghost use Rattle.words.specs.Words.{word};
ghost use Rattle.wav.specs.Bytes.{little};
ghost use Rattle.wav.specs.Samples.{sample_in, samples_of, data_of, in_i16, all_in_i16, read_part, read_slice, write_part, write_slice};

use blocks::Refusal;

// Whether a sample is within i16.
fn fits(x: i32) -> bool
    ensures { result ≡ in_i16 x }
{
    -32768 <= x && x <= 32767
}

// Whether every sample is. All of them are looked at, also behind a bad one: a loop without another way out is compiled to
// many samples at a time.
#[tactic(auto, using(crate::proofs::Parts::fit_on))]
fn all_fit(samples: &[i32]) -> bool
    ensures { result ≡ all_in_i16 samples.now }
{
    let mut good = true;
    for &x in samples {
        good &= fits(x);
    }
    good
}

// The sample of two bytes.
fn sample(lo: u8, hi: u8) -> i32
    ensures { result ≡ sample_in lo hi }
{
    i32::from(i16::from_le_bytes([lo, hi]))
}

// The two bytes of a sample within i16.
fn pair(x: i32) -> [u8; 2]
    requires { IsTrue (in_i16 x) }
    ensures { result ≡ little 2 (word w16 x) }
{
    (x as i16).to_le_bytes()
}

// The samples of a part's bytes, at the front of out.
fn read_all(bytes: &[u8], out: &mut [i32])
    requires { length bytes.now / 2 ≤ length out.old }
    ensures { out.new ≡ samples_of bytes.now ++ drop (length bytes.now / 2) out.old }
{
    let (pairs, _) = bytes.as_chunks::<2>();
    for (i, &[lo, hi]) in pairs.iter().enumerate() {
        out[i] = sample(lo, hi);
    }
}

// The bytes of a part's samples, at the front of out.
fn write_all(samples: &[i32], out: &mut [u8])
    requires room { 2 * length samples.now ≤ length out.old }
    requires inside { IsTrue (all_in_i16 samples.now) }
    ensures { out.new ≡ data_of samples.now ++ drop (2 * length samples.now) out.old }
{
    for (i, &x) in samples.iter().enumerate() {
        let [lo, hi] = pair(x);
        out[2 * i] = lo;
        out[2 * i + 1] = hi;
    }
}

// Reads a part of the data: its samples go to the front of out, and the rest of out stays. Gives how many they are. Refused,
// nothing written: 20, out is shorter than half the part; 90, a part of odd length.
#[tactic(auto, unfolding(crate::specs::Samples::read_number, blocks::specs::Refusals::answer, blocks::specs::Refusals::refusal_at))]
pub fn read_part(bytes: &[u8], out: &mut [i32]) -> Result<usize, Refusal>
    ensures { (result ≡ read_part bytes.now out.old)
        × (out.new ≡ read_slice bytes.now out.old) }
{
    if out.len() < bytes.len() / 2 {
        return Err(Refusal::ShortOutput);
    }
    if bytes.len() % 2 != 0 {
        return Err(Refusal::FileForm);
    }
    read_all(bytes, out);
    Ok(bytes.len() / 2)
}

// Writes a part of the data: its bytes go to the front of out, and the rest of out stays. Gives how many they are. Refused,
// nothing written: 20, out is shorter than two bytes a sample; 91, a sample outside i16, wherever in the part it stands.
#[tactic(auto, unfolding(crate::specs::Samples::write_number, blocks::specs::Refusals::answer, blocks::specs::Refusals::refusal_at))]
pub fn write_part(samples: &[i32], out: &mut [u8]) -> Result<usize, Refusal>
    ensures { (result ≡ write_part samples.now out.old)
        × (out.new ≡ write_slice samples.now out.old) }
{
    if out.len() / 2 < samples.len() {
        return Err(Refusal::ShortOutput);
    }
    if !all_fit(samples) {
        return Err(Refusal::SampleRange);
    }
    write_all(samples, out);
    Ok(2 * samples.len())
}
