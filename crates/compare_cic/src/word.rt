// The word of this program, i32: how it is drawn, what its bits are, how it is digested. No other file names it.
use rust_answers::runs::{digest, spread};

pub(crate) type Word = i32;

// The generator's state after a word, and the word.
#[derive(Clone, Copy)]
pub(crate) struct DrawnWord {
    pub state: u64,
    pub value: Word,
}

// The next word, by spread.
pub(crate) fn spread_word(state: u64) -> DrawnWord {
    let r = spread(state);
    DrawnWord {
        state: r.state,
        value: r.value.cast_signed(),
    }
}

// The word whose bits are the number's low ones.
pub(crate) fn word_of(bits: u64) -> Word {
    ((bits % 0x1_0000_0000) as u32).cast_signed()
}

// A word's bits as a number.
pub(crate) fn bits_of(y: Word) -> u64 {
    u64::from(y.cast_unsigned())
}

// The digest d grown by a word.
pub(crate) fn digest_word(d: u64, y: Word) -> u64 {
    digest(d, y.cast_unsigned())
}
