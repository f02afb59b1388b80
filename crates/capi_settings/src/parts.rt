// A record's fields, and answers as numbers.
ghost use Rattle.std.specs.Prelude.{◌≡◌};
ghost use Rattle.capi_settings.specs.Fields.{version_at, numbers_of, kind_at, fields_at, fields_of, entry_at};
ghost use Rattle.capi_settings.specs.Calls.{record_at, placed};

use entries::settings::{Entry, Kind, Name, Settings, no_entry};
use settings_text::version::Version;

// A record's kind and all its numbers but its coefficients; those that its kind has not are 0.
// Kept: the C interface has a number for the kind and a parameter for each field.
#[derive(Clone, Copy)]
pub(crate) struct Numbers {
    pub kind: u32,
    pub order: u32,
    pub delay: u32,
    pub rate: u32,
    pub sections: usize,
    pub architecture: u32,
    pub f: u32,
}

#[tactic(auto, unfolding(crate::specs::Fields::version_at))]
pub(crate) fn version_at(form: u32) -> Version
    ensures { result ≡ version_at form }
{
    if form == 2 {
        return Version::Two;
    }
    Version::One
}

#[tactic(auto, unfolding(crate::specs::Fields::numbers_of))]
fn numbers_of(kind: Kind) -> Numbers
    ensures { result ≡ numbers_of kind }
{
    match kind {
        Kind::Cic(order, delay, rate) => Numbers {
            kind: 0,
            order,
            delay,
            rate,
            sections: 0,
            architecture: 0,
            f: 0,
        },
        Kind::Wdf(sections, architecture) => Numbers {
            kind: 1,
            order: 0,
            delay: 0,
            rate: 0,
            sections,
            architecture,
            f: 0,
        },
        Kind::Dither(f) => Numbers {
            kind: 2,
            order: 0,
            delay: 0,
            rate: 0,
            sections: 0,
            architecture: 0,
            f,
        },
    }
}

#[tactic(auto, unfolding(crate::specs::Fields::kind_at))]
fn kind_at(n: Numbers) -> Kind
    ensures { result ≡ kind_at n }
{
    if n.kind == 0 {
        return Kind::Cic(n.order, n.delay, n.rate);
    }
    if n.kind == 1 {
        return Kind::Wdf(n.sections, n.architecture);
    }
    Kind::Dither(n.f)
}

// The record that stands in these fields.
pub(crate) fn entry_in(
    name: &[u8; 16],
    len: &usize,
    kind: &u32,
    order: &u32,
    delay: &u32,
    rate: &u32,
    sections: &usize,
    architecture: &u32,
    f: &u32,
    a: &[i32; 8],
) -> Entry
    ensures { result ≡ entry_at (fields_at name.now len.now kind.now order.now delay.now rate.now sections.now architecture.now f.now a.now) }
{
    let bytes = *name;
    let held = Name { bytes, len: *len };
    let numbers = Numbers {
        kind: *kind,
        order: *order,
        delay: *delay,
        rate: *rate,
        sections: *sections,
        architecture: *architecture,
        f: *f,
    };
    let which = kind_at(numbers);
    let coefficients = *a;
    Entry {
        name: held,
        kind: which,
        a: coefficients,
    }
}

// The fields take what stands in the record.
pub(crate) fn entry_out(
    next: Entry,
    name: &mut [u8; 16],
    len: &mut usize,
    kind: &mut u32,
    order: &mut u32,
    delay: &mut u32,
    rate: &mut u32,
    sections: &mut usize,
    architecture: &mut u32,
    f: &mut u32,
    a: &mut [i32; 8],
)
    ensures { fields_at name.new len.new kind.new order.new delay.new rate.new sections.new architecture.new f.new a.new ≡ fields_of next }
{
    let held = next.name;
    let bytes = held.bytes;
    let which = next.kind;
    let coefficients = next.a;
    let n = numbers_of(which);
    *name = bytes;
    *len = held.len;
    *kind = n.kind;
    *order = n.order;
    *delay = n.delay;
    *rate = n.rate;
    *sections = n.sections;
    *architecture = n.architecture;
    *f = n.f;
    *a = coefficients;
}

// The record at a place; an empty one where there is none.
#[tactic(auto, unfolding(crate::specs::Calls::record_at))]
pub(crate) fn record_at(settings: Settings, place: usize) -> Entry
    ensures { result ≡ record_at settings place }
{
    if 64 <= place {
        return no_entry();
    }
    let entries = settings.entries;
    let held = entries[place];
    let name = held.name;
    let kind = held.kind;
    let a = held.a;
    Entry { name, kind, a }
}

// The settings with a record at a place, in the place of the one there or after the last. A place beyond the 64th makes them too many.
#[tactic(auto, unfolding(crate::specs::Calls::placed))]
pub(crate) fn put_at(settings: Settings, place: usize, entry: Entry) -> Settings
    ensures { result ≡ placed settings place entry }
{
    let mut entries = settings.entries;
    if 64 <= place {
        return Settings { count: 65, entries };
    }
    entries[place] = entry;
    if place < settings.count {
        return Settings {
            count: settings.count,
            entries,
        };
    }
    Settings {
        count: place + 1,
        entries,
    }
}
