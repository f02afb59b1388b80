// A line of 18 bytes read as a record: a letter, 16 hex digits (the number of a word, or of the words so far, and an argument,
// 32 bits each) and the newline.
ghost use Rattle.std.specs.Prelude.{◌≡◌};
ghost use Rattle.desk.specs.Lines.{kind_of, bits_record, record_of};

use blocks::Refusal;
use text::hex::hex_word;

// What a record does: `w`, `o`, `r`, `p`, `q`, `s`.
#[derive(Clone, Copy)]
pub enum Kind {
    Word,
    Open,
    Rate,
    Pull,
    Push,
    Save,
    Unknown,
}

// A record with its number and its argument, or its refusal.
#[derive(Clone, Copy)]
pub enum Record {
    Is(Kind, u32, u32),
    Bad(Refusal),
}

fn kind_of(letter: u8) -> Kind
    ensures { result ≡ kind_of letter }
{
    if letter == b'w' {
        return Kind::Word;
    }
    if letter == b'o' {
        return Kind::Open;
    }
    if letter == b'r' {
        return Kind::Rate;
    }
    if letter == b'p' {
        return Kind::Pull;
    }
    if letter == b'q' {
        return Kind::Push;
    }
    if letter == b's' {
        return Kind::Save;
    }
    Kind::Unknown
}

fn bits_record(kind: Kind, p: Option<u64>) -> Record
    ensures { result ≡ bits_record kind p }
{
    let Some(v) = p else {
        return Record::Bad(Refusal::Malformed);
    };
    Record::Is(kind, (v / 4294967296) as u32, (v % 4294967296) as u32)
}

// A line. Refused with 72 where it isn't of 17 bytes and their newline, 75 where a digit is none.
pub fn read_record(line: &[u8]) -> Record
    ensures { result ≡ record_of line.now }
{
    if line.len() != 18 {
        return Record::Bad(Refusal::LongLine);
    }
    if line[17] != b'\n' {
        return Record::Bad(Refusal::LongLine);
    }
    let kind = kind_of(line[0]);
    let p = hex_word(&line[1..17]);
    bits_record(kind, p)
}
