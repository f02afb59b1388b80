// Reading a store: a line at a time into 64 entries.
ghost use Rattle.std.specs.Prelude.{◌≡◌, []};
ghost use Rattle.text.specs.Parts.{parted};
ghost use Rattle.text.specs.Same.{same};
ghost use Rattle.settings_text.specs.Lines.{heading, form_of, form1, form2, version_of};
ghost use Rattle.settings_text.specs.Lines as lines;
ghost use Rattle.settings_text.specs.Stores.{read_of, lines_in};
ghost use Rattle.entries.specs.Entries.{name_bytes};
ghost use Rattle.store_read.specs.Reading.{entry_read, found};

use crate::cutting::cut;
use crate::line::record_in;
use blocks::Refusal;
use entries::settings::{Entry, Name, Settings, no_entry, no_name};
use settings_text::version::Version;
use text::comparing::same_bytes;

// The first bad line, from 1, and what refuses it; line 0 where no line is to blame.
#[derive(Clone, Copy, Debug, PartialEq, Eq)]
pub struct BadLine {
    pub line: usize,
    pub refusal: Refusal,
}

// Whether a first line opens a store of the form.
fn opens(version: Version, first: &[u8]) -> bool
    ensures { result ≡ same first.now (heading version) }
{
    match version {
        Version::One => same_bytes(first, b"set\t1"),
        Version::Two => same_bytes(first, b"set\t2"),
    }
}

// The form that a text's first line opens; form 1 where it opens none.
pub fn form_of(text: &[u8]) -> Version
    ensures { result ≡ version_of text.now }
{
    let (first, rest) = cut(text, b'\n');
    if let Some(_) = rest {
        if opens(Version::Two, first) {
            return Version::Two;
        }
    }
    Version::One
}

// A line's record, judged after k records, the last of them named `last`.
fn next(version: Version, line: &[u8], k: usize, last: &Name) -> Result<Entry, Refusal>
    ensures { result ≡ entry_read version k (name_bytes last.now) (lines.record_in version line.now) }
{
    let Some(entry) = record_in(version, line) else {
        return Err(Refusal::SettingsLine);
    };
    entry.check(version, k, last)?;
    Ok(entry)
}

// The lines after the first.
fn read_lines(version: Version, text: &[u8]) -> Result<Settings, BadLine>
    ensures { result ≡ found (lines_in (form_of version) 0 [] (parted 10 text.now)) }
{
    let mut entries = [no_entry(); 64];
    let mut last = no_name();
    let mut count: usize = 0;
    let mut left = text;
    while !left.is_empty() {
        let (line, rest) = cut(left, b'\n');
        let Some(rest) = rest else {
            return Err(BadLine {
                line: count + 2,
                refusal: Refusal::SettingsLine,
            });
        };
        match next(version, line, count, &last) {
            Ok(entry) => {
                entries[count] = entry;
                last = entry.name;
                count += 1;
                left = rest;
            }
            Err(refusal) => {
                return Err(BadLine {
                    line: count + 2,
                    refusal,
                });
            }
        }
    }
    Ok(Settings { count, entries })
}

// Reads a store of a form: its settings, or its first bad line and what that is refused with.
pub fn read_store(version: Version, text: &[u8]) -> Result<Settings, BadLine>
    ensures { result ≡ found (read_of (form_of version) text.now) }
{
    let (first, rest) = cut(text, b'\n');
    if let Some(lines) = rest {
        if opens(version, first) {
            return read_lines(version, lines);
        }
    }
    Err(BadLine {
        line: 1,
        refusal: Refusal::StoreForm,
    })
}

// Reads a store of form 1: its settings, or its first bad line and what that is refused with.
pub fn read_form1(text: &[u8]) -> Result<Settings, BadLine>
    ensures { result ≡ found (read_of form1 text.now) }
{
    read_store(Version::One, text)
}

// The same of form 2.
pub fn read_form2(text: &[u8]) -> Result<Settings, BadLine>
    ensures { result ≡ found (read_of form2 text.now) }
{
    read_store(Version::Two, text)
}
