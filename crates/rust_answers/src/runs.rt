// Long runs: inputs drawn from a seed, and a digest of what comes out, all modulo 2^64.
ghost use Rattle.std.specs.Prelude.{◌≡◌, take};
ghost use Rattle.rust_answers.specs.Runs.{edge_of, drawn, spread_of, digest_of, digest_two, digest_all};

const EDGES: [u32; 8] = [
    0,
    1,
    0x7fff_ffff,
    0x8000_0000,
    0xffff_ffff,
    0x8000_0001,
    0x4000_0000,
    0xc000_0000,
];

// The generator's state after a word, and the word.
#[derive(Clone, Copy, Debug, PartialEq, Eq)]
pub struct Drawn {
    pub state: u64,
    pub value: u32,
}

// The next word.
#[tactic(auto, unfolding(crate::specs::Runs::drawn))]
pub fn draw(state: u64) -> Drawn
    ensures { result ≡ drawn state }
{
    let next = state
        .wrapping_mul(6364136223846793005)
        .wrapping_add(1442695040888963407);
    Drawn {
        state: next,
        value: (next / 4294967296) as u32,
    }
}

fn edge(u: u32) -> u32
    ensures { result ≡ edge_of u }
{
    EDGES[(u / 4 % 8) as usize]
}

// The next word, one time in four from the edges of the range.
#[tactic(auto, unfolding(crate::specs::Runs::spread_of))]
pub fn spread(state: u64) -> Drawn
    ensures { result ≡ spread_of state }
{
    let first = draw(state);
    if first.value % 4 == 0 {
        return Drawn {
            state: first.state,
            value: edge(first.value),
        };
    }
    draw(first.state)
}

// The digest d grown by the word w.
#[tactic(auto, unfolding(crate::specs::Runs::digest_of))]
pub fn digest(d: u64, w: u32) -> u64
    ensures { result ≡ digest_of d w }
{
    d.wrapping_mul(6364136223846793005)
        .wrapping_add(u64::from(w) + 1)
}

// The digest d grown by both words of v, the high one first.
#[tactic(auto, unfolding(crate::specs::Runs::digest_two))]
pub fn digest_double(d: u64, v: u64) -> u64
    ensures { result ≡ digest_two d v }
{
    digest(digest(d, (v / 4294967296) as u32), (v % 4294967296) as u32)
}

// The digest d grown by each word of a slice.
#[tactic(auto, unfolding(crate::specs::Runs::digest_all))]
pub fn digest_words(d: u64, words: &[u32]) -> u64
    ensures { result ≡ digest_all d words.now }
{
    let mut e = d;
    for &w in words {
        e = digest(e, w);
    }
    e
}

// The digest d grown by the first n words of a slice, or by all where it has fewer.
pub fn digest_first(d: u64, words: &[u32], n: usize) -> u64
    ensures { result ≡ digest_all d (take n words.now) }
{
    if words.len() <= n {
        return digest_words(d, words);
    }
    digest_words(d, &words[..n])
}
