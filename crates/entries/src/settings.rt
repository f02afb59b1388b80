// The settings by value: up to 64 records by name.
ghost use Rattle.std.specs.Prelude.{◌≡◌};
ghost use Rattle.entries.specs.Entries.{empty_entry, empty_name};

// A record's name: its first `len` bytes, 1 to 16 lower-case letters.
#[derive(Clone, Copy, Debug, PartialEq, Eq)]
pub struct Name {
    pub bytes: [u8; 16],
    pub len: usize,
}

// What a record is for: the numbers that `Cic::new` or `Wdf::new` is given, or a dithered biquad's F.
#[derive(Clone, Copy, Debug, PartialEq, Eq)]
pub enum Kind {
    // Order, delay, and the rate in form 1 or R in form 2.
    Cic(u32, u32, u32),
    // Sections and architecture.
    Wdf(usize, u32),
    // Fraction bits of a `dither`, in form 2 alone.
    Dither(u32),
}

// A record. `a` holds the coefficients of a `wdf`, one for each section, and the rest of it never matters; or the five
// coefficients, offset, lower and upper limit of a `dither`.
#[derive(Clone, Copy, Debug, PartialEq, Eq)]
pub struct Entry {
    pub name: Name,
    pub kind: Kind,
    pub a: [i32; 8],
}

// The first `count` entries are the records, in ascending name order.
#[derive(Clone, Copy, Debug, PartialEq, Eq)]
pub struct Settings {
    pub count: usize,
    pub entries: [Entry; 64],
}

// What stands in an entry that holds no record.
pub fn no_entry() -> Entry
    ensures { result ≡ empty_entry }
{
    Entry {
        name: no_name(),
        kind: Kind::Cic(0, 1, 0),
        a: [0; 8],
    }
}

// The name before the first record's: it comes before every name.
pub fn no_name() -> Name
    ensures { result ≡ empty_name }
{
    Name {
        bytes: [0; 16],
        len: 0,
    }
}
