// The moves of a store from form 1 to form 2 and back, over lent slices.
ghost use Rattle.std.specs.Prelude.{◌≡◌};
ghost use Rattle.settings_text.specs.Moves.{forth, back};
ghost use Rattle.store.specs.Moving.{Moves, unblamed, third_in, architecture_in, recast_kind, recast_entry, recast_in, dither_kind, any_dither_in};

use blocks::Refusal;
use entries::settings::{Entry, Kind, Settings};
use settings_text::version::Version;
use store_read::reading::{BadLine, read_form1, read_form2};
use store_write::saving::{write_form1, write_form2};
use wdf::filter::current_architecture;

// A `cic`'s third number as it stands in a form: R is the rate + 1.
fn third(version: Version, n: u32) -> u32
    ensures { result ≡ third_in version n }
{
    match version {
        Version::One => {
            if n < 1 {
                return 0;
            }
            n - 1
        }
        Version::Two => {
            if n < 4294967295 {
                return n + 1;
            }
            0
        }
    }
}

// An architecture as it stands in a form: b and c in the places of e and f in form 2.
fn architecture_in(version: Version, sections: usize, architecture: u32) -> u32
    ensures { result ≡ architecture_in version sections architecture }
{
    match version {
        Version::One => architecture,
        Version::Two => current_architecture(sections, architecture),
    }
}

fn recast_kind(version: Version, kind: Kind) -> Kind
    ensures { result ≡ recast_kind version kind }
{
    match kind {
        Kind::Cic(order, delay, n) => Kind::Cic(order, delay, third(version, n)),
        Kind::Wdf(sections, architecture) => {
            Kind::Wdf(sections, architecture_in(version, sections, architecture))
        }
        Kind::Dither(f) => Kind::Dither(f),
    }
}

fn recast(version: Version, entry: Entry) -> Entry
    ensures { result ≡ recast_entry version entry }
{
    let held = entry.kind;
    let kind = recast_kind(version, held);
    let name = entry.name;
    let a = entry.a;
    Entry { name, kind, a }
}

// The settings as they stand in the other form.
fn recast_all(version: Version, settings: Settings) -> Settings
    ensures { result ≡ recast_in version settings }
{
    let count = settings.count;
    let mut entries = settings.entries;
    for entry in entries.iter_mut() {
        *entry = recast(version, *entry);
    }
    Settings { count, entries }
}

fn is_dither(kind: Kind) -> bool
    ensures { result ≡ dither_kind kind }
{
    matches!(kind, Kind::Dither(_))
}

fn has_dither(entries: &[Entry; 64]) -> bool
    ensures { result ≡ any_dither_in entries.now }
{
    for entry in entries {
        if is_dither(entry.kind) {
            return true;
        }
    }
    false
}

// What writing answers: no line is to blame.
fn unblamed(wrote: Result<usize, Refusal>) -> Result<usize, BadLine>
    ensures { result ≡ unblamed wrote }
{
    match wrote {
        Ok(n) => Ok(n),
        Err(refusal) => Err(BadLine { line: 0, refusal }),
    }
}

// Moves a store of form 1 to form 2, with b and c in the places of e and f, at the start of the slice: how many bytes. The rest of the slice
// stays. A store that can't be read is refused by its own number, else a short slice by 20: then nothing is written.
pub fn move_forth(text: &[u8], out: &mut [u8]) -> Result<usize, BadLine>
    ensures { Moves (forth text.now) out.old result out.new }
{
    let settings = read_form1(text)?;
    unblamed(write_form2(recast_all(Version::Two, settings), out))
}

// Moves a store of form 2 back to form 1. One that holds a `dither` record is refused by 84, before 20.
pub fn move_back(text: &[u8], out: &mut [u8]) -> Result<usize, BadLine>
    ensures { Moves (back text.now) out.old result out.new }
{
    let settings = read_form2(text)?;
    if has_dither(&settings.entries) {
        return Err(BadLine {
            line: 0,
            refusal: Refusal::DitherPresent,
        });
    }
    unblamed(write_form1(recast_all(Version::One, settings), out))
}
