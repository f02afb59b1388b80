// Writing a store: the list is judged first, then the slice.
ghost use Rattle.std.specs.Prelude.{◌≡◌, [], ◌∷◌, ◌++◌, ◌≤◌, length, OnOk};
ghost use Rattle.blocks.specs.Refusals.{answer};
ghost use Rattle.text.specs.Letters.{newline};
ghost use Rattle.settings_text.specs.Lines.{heading, form_of};
ghost use Rattle.settings_text.specs.Stores.{listed_number};
ghost use Rattle.settings_text.specs.declared.version.Version.TheVariants.{Two};
ghost use Rattle.entries.specs.Entries.{name_bytes, entry_setting};
ghost use Rattle.store_write.specs.Writing.{Ended, Composing, allowed_in, sections};
ghost use Rattle.store_write.specs.Saving.{Saves, SavesAs};

use crate::writing::put_line;
use blocks::Refusal;
use entries::names::is_name;
use entries::settings::{Entry, Kind, Name, Settings, no_name};
use settings_text::version::Version;
use text::writing::put_bytes;

// Whether a record of the kind has a place in the form.
fn allowed(version: Version, kind: Kind) -> bool
    ensures { result ≡ allowed_in version kind }
{
    match kind {
        Kind::Cic(_n, _m, _rate) => true,
        Kind::Wdf(_k, _m) => true,
        Kind::Dither(_f) => match version {
            Version::One => false,
            Version::Two => true,
        },
    }
}

// What refuses an entry after k, the last of them named `last`.
fn check_entry(version: Version, k: usize, last: &Name, entry: Entry) -> Result<(), Refusal>
    ensures number { result ≡ answer (listed_number (form_of version) k (name_bytes last.now) (entry_setting entry)) tt }
    ensures room { OnOk result ((entry.name.len ≤ 16) × (sections entry.kind ≤ 8)) }
{
    if 16 < entry.name.len {
        return Err(Refusal::SettingsLine);
    }
    if !is_name(entry.name.letters()) {
        return Err(Refusal::SettingsLine);
    }
    if !allowed(version, entry.kind) {
        return Err(Refusal::SettingsLine);
    }
    entry.check(version, k, last)
}

// The first line and its newline.
fn put_heading(version: Version, out: &mut [u8]) -> usize
    requires { 6 ≤ length out.old }
    ensures { Ended out.old 0 (heading version ++ (newline ∷ [])) 6 result out.new }
{
    match version {
        Version::One => put_bytes(out, 0, b"set\t1\n"),
        Version::Two => put_bytes(out, 0, b"set\t2\n"),
    }
}

// Judges the records in turn and puts their lines into a buffer that has room for 64; where the text ends.
fn compose(version: Version, settings: Settings, out: &mut [u8]) -> Result<usize, Refusal>
    requires { 9030 ≤ length out.old }
    ensures { Composing version settings out.old result out.new }
{
    let mut last = no_name();
    let mut end = put_heading(version, out);
    for i in 0..settings.count {
        if 64 <= i {
            return Err(Refusal::ManySettings);
        }
        let entry = settings.entries[i];
        check_entry(version, i, &last, entry)?;
        end = put_line(out, end, entry);
        last = entry.name;
    }
    Ok(end)
}

// Writes a store of a form at the start of the slice: how many bytes. The rest of the slice stays. A bad list is refused by its
// number, else a short slice by 20: then nothing is written.
pub fn write_store(version: Version, settings: Settings, out: &mut [u8]) -> Result<usize, Refusal>
    ensures { SavesAs version settings out.old result out.new }
{
    let mut buf = [0u8; 9030];
    let end = compose(version, settings, &mut buf)?;
    if out.len() < end {
        return Err(Refusal::ShortOutput);
    }
    put_bytes(out, 0, &buf[..end]);
    Ok(end)
}

// The same of form 1.
pub fn write_form1(settings: Settings, out: &mut [u8]) -> Result<usize, Refusal>
    ensures { Saves settings out.old result out.new }
{
    write_store(Version::One, settings, out)
}

// The same of form 2.
pub fn write_form2(settings: Settings, out: &mut [u8]) -> Result<usize, Refusal>
    ensures { SavesAs Two settings out.old result out.new }
{
    write_store(Version::Two, settings, out)
}
