// The 44-byte header.
ghost use Rattle.std.specs.Prelude.{◌≡◌, ◌++◌, ◌+◌, ◌≤◌, drop, take};
ghost use Rattle.blocks.specs.Refusals.{answer};
ghost use Rattle.blocks.specs.Blocks.{unless};
ghost use Rattle.wav.specs.Bytes.{little_in};
ghost use Rattle.wav.specs.Header.{header_of, made_of, may_be, head_of, said_length, head_number};

use blocks::Refusal;

// What a header tells: samples a second, and the size of the data in bytes.
#[derive(Clone, Copy, Debug, PartialEq, Eq)]
pub struct Recording {
    pub rate: u32,
    pub size: u32,
}

// Whether there is a header with that rate and data size.
#[tactic(auto, unfolding(crate::specs::Header::may_be))]
fn may_be(rate: u32, size: u32) -> bool
    ensures { result ≡ may_be rate size }
{
    rate <= 2147483647 && size <= 2147483000 && size % 2 == 0
}

// The header of a rate and a data size. Refused with 90 where there is none.
fn header(rate: u32, size: u32) -> Result<[u8; 44], Refusal>
    ensures { result ≡ made_of rate size }
{
    if !may_be(rate, size) {
        return Err(Refusal::FileForm);
    }
    let mut head = *b"RIFF....WAVEfmt \x10\0\0\0\x01\0\x01\0........\x02\0\x10\0data....";
    head[4..8].copy_from_slice(&(36 + size).to_le_bytes());
    head[24..28].copy_from_slice(&rate.to_le_bytes());
    head[28..32].copy_from_slice(&(2 * rate).to_le_bytes());
    head[40..44].copy_from_slice(&size.to_le_bytes());
    Ok(head)
}

// The number of the four bytes at a place of a header.
fn four(head: &[u8; 44], at: usize) -> u32
    requires { at + 4 ≤ 44 }
    ensures { result ≡ little_in (take 4 (drop at head.now)) }
{
    u32::from_le_bytes([head[at], head[at + 1], head[at + 2], head[at + 3]])
}

// The length of the file that the bytes' header speaks of: 44 plus the data size; 0 where there are fewer than 44 bytes. For
// a reader at a pipe, who knows no length until it ends and compares it then.
pub fn said_length(bytes: &[u8]) -> u64
    ensures { result ≡ said_length bytes.now }
{
    match bytes.first_chunk::<44>() {
        Some(head) => 44 + u64::from(four(head, 40)),
        None => 0,
    }
}

// Reads a header, the first 44 bytes of a file that is `length` bytes long in all. Refused with 90: fewer bytes, any other
// header, and a length that isn't 44 plus the data size.
pub fn read_header(bytes: &[u8], length: u64) -> Result<Recording, Refusal>
    ensures { result ≡ head_of bytes.now length }
{
    let Some(head) = bytes.first_chunk::<44>() else {
        return Err(Refusal::FileForm);
    };
    let rate = four(head, 24);
    let size = four(head, 40);
    let expected = header(rate, size)?;
    if length != 44 + u64::from(size) {
        return Err(Refusal::FileForm);
    }
    if *head != expected {
        return Err(Refusal::FileForm);
    }
    Ok(Recording { rate, size })
}

// Writes the header of a sample rate and a data size in bytes to the front of out; the rest stays. Refused, nothing written:
// 20, out is shorter than 44 bytes; 90, a rate above 2^31 - 1, or a size that is odd or above 2,147,483,000.
#[tactic(auto, unfolding(crate::specs::Header::head_number, blocks::specs::Refusals::answer, blocks::specs::Refusals::refusal_at))]
pub fn write_header(rate: u32, size: u32, out: &mut [u8]) -> Result<(), Refusal>
    ensures { (result ≡ answer (head_number rate size out.old) tt)
        × (out.new ≡ unless (head_number rate size out.old) out.old
        (header_of rate size ++ drop 44 out.old)) }
{
    if out.len() < 44 {
        return Err(Refusal::ShortOutput);
    }
    let made = header(rate, size)?;
    out[..44].copy_from_slice(&made);
    Ok(())
}
