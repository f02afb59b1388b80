// The word of this program, i64: how it is drawn, what its bits are, how it is digested. No other file names it.
use rust_answers::lines::double;
use rust_answers::runs::{digest_double, spread};

pub(crate) type Word = i64;

// The generator's state after a word, and the word.
#[derive(Clone, Copy)]
pub(crate) struct DrawnWord {
    pub state: u64,
    pub value: Word,
}

// The next word, its halves by spread, the high one first.
pub(crate) fn spread_word(state: u64) -> DrawnWord {
    let high = spread(state);
    let low = spread(high.state);
    DrawnWord {
        state: low.state,
        value: double(high.value, low.value).cast_signed(),
    }
}

// The word whose bits are the number's low ones.
pub(crate) fn word_of(bits: u64) -> Word {
    bits.cast_signed()
}

// A word's bits as a number.
pub(crate) fn bits_of(y: Word) -> u64 {
    y.cast_unsigned()
}

// The digest d grown by a word.
pub(crate) fn digest_word(d: u64, y: Word) -> u64 {
    digest_double(d, y.cast_unsigned())
}
