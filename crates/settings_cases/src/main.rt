// Every reading of document 02, A7, A12 and A13, with a case: names and texts on standard input, each ended by `#`. A name is
// answered by what the reader of form 1 finds in its text, `ok`, the form and the count of records, or `bad`, line and
// number; where the text opens form 2, by what the reader of form 2 finds, too, and by what the move back answers. A text
// that was read is written again and must be the same, and one of form 1 is told where it isn't the same forth and back.
// Then lists that no text can hold are written, and stores are moved into short slices.

#![tactic(auto)]

ghost use Rattle.std.specs.Prelude.{◌≡◌, ◌≤◌, ◌<◌, length, IfOk};

use blocks::Refusal;
use entries::settings::{Entry, Kind, Name, Settings};
use settings_text::version::Version;
use std::io;
use std::io::Read;
use store::moving::{move_back, move_forth};
use store_read::reading::{BadLine, form_of, read_store};
use store_write::saving::write_store;
use text::comparing::same_bytes;
use text::parts::part_end;

fn print(rt: &impl Print, bytes: &[u8]) -> io::Result<()> {
    rt.write_all(bytes)
}

fn print_number(rt: &impl Print, n: u64) -> io::Result<()> {
    rt.print(n)
}

fn print_bad(rt: &impl Print, bad: BadLine) -> io::Result<()> {
    print(rt, b"\tbad\t")?;
    print_number(rt, bad.line as u64)?;
    print(rt, b"\t")?;
    print_number(rt, bad.refusal.number() as u64)?;
    print(rt, b"\n")
}

fn print_bytes(rt: &impl Print, n: usize) -> io::Result<()> {
    print(rt, b"\twritten\t")?;
    print_number(rt, n as u64)?;
    print(rt, b"\n")
}

// What writing answers.
fn print_written(rt: &impl Print, wrote: Result<usize, Refusal>) -> io::Result<()> {
    match wrote {
        Ok(n) => print_bytes(rt, n)?,
        Err(refusal) => {
            print(rt, b"\tbad\t")?;
            print_number(rt, refusal.number() as u64)?;
            print(rt, b"\n")?;
        }
    }
    Ok(())
}

// What a move answers.
fn print_moved(rt: &impl Print, moved: Result<usize, BadLine>) -> io::Result<()> {
    match moved {
        Ok(n) => print_bytes(rt, n)?,
        Err(bad) => print_bad(rt, bad)?,
    }
    Ok(())
}

// Whether the settings are written as the bytes that they were read from.
fn comes_back(version: Version, settings: Settings, text: &[u8], out: &mut [u8]) -> bool {
    match write_store(version, settings, out) {
        Ok(n) => {
            if out.len() < n {
                return false;
            }
            same_bytes(&out[..n], text)
        }
        Err(_) => false,
    }
}

// Whether a text of form 2 is moved back to these bytes.
fn is_back(there: &[u8], text: &[u8], out: &mut [u8]) -> bool {
    match move_back(there, out) {
        Ok(n) => {
            if out.len() < n {
                return false;
            }
            same_bytes(&out[..n], text)
        }
        Err(_) => false,
    }
}

// Whether a text of form 1 is the same forth and back.
fn returns(text: &[u8], there: &mut [u8], out: &mut [u8]) -> bool {
    match move_forth(text, there) {
        Ok(n) => {
            if there.len() < n {
                return false;
            }
            is_back(&there[..n], text, out)
        }
        Err(_) => false,
    }
}

fn print_form(rt: &impl Print, version: Version) -> io::Result<()> {
    match version {
        Version::One => print(rt, b"\tok\t1\t")?,
        Version::Two => print(rt, b"\tok\t2\t")?,
    }
    Ok(())
}

// Whether the text could be read in the form.
fn show_read(rt: &impl Print, version: Version, name: &[u8], text: &[u8]) -> io::Result<bool> {
    print(rt, name)?;
    let settings = match read_store(version, text) {
        Ok(settings) => settings,
        Err(bad) => {
            print_bad(rt, bad)?;
            return Ok(false);
        }
    };
    print_form(rt, version)?;
    print_number(rt, settings.count as u64)?;
    print(rt, b"\n")?;
    let mut out = [0u8; 10310];
    if !comes_back(version, settings, text, &mut out) {
        print(rt, b"not written as it was read\n")?;
    }
    Ok(true)
}

fn show_back(rt: &impl Print, name: &[u8], text: &[u8]) -> io::Result<()> {
    print(rt, name)?;
    print(rt, b", back")?;
    let mut out = [0u8; 10310];
    print_moved(rt, move_back(text, &mut out))
}

fn show_return(rt: &impl Print, name: &[u8], text: &[u8]) -> io::Result<()> {
    let mut there = [0u8; 10310];
    let mut out = [0u8; 10310];
    if !returns(text, &mut there, &mut out) {
        print(rt, name)?;
        print(rt, b"\tother bytes forth and back\n")?;
    }
    Ok(())
}

fn show(rt: &impl Print, name: &[u8], text: &[u8]) -> io::Result<()> {
    if show_read(rt, Version::One, name, text)? {
        show_return(rt, name, text)?;
    }
    let Version::Two = form_of(text) else {
        return Ok(());
    };
    show_read(rt, Version::Two, name, text)?;
    show_back(rt, name, text)
}

// The case at a place of a file, and the place of the next; the file's end where no whole case is left.
fn show_next(rt: &impl Print, file: &[u8], at: usize) -> io::Result<usize>
    requires { at < length file.now }
    ensures { IfOk result (λ next. at < next) }
{
    let e = part_end(file, at, b'#');
    if file.len() <= e {
        return Ok(file.len());
    }
    let from = e + 1;
    let end = part_end(file, from, b'#');
    if file.len() <= end {
        return Ok(file.len());
    }
    show(rt, &file[at..e], &file[from..end])?;
    Ok(end + 1)
}

fn show_all(rt: &impl Print, file: &[u8]) -> io::Result<()> {
    let mut at: usize = 0;
    while at < file.len() {
        at = show_next(rt, file, at)?;
    }
    Ok(())
}

fn named(bytes: [u8; 16], len: usize, kind: Kind) -> Entry {
    let name = Name { bytes, len };
    let a = [-1i32; 8];
    Entry { name, kind, a }
}

// A list whose entries are all the same, written into the first bytes of a slice.
fn write_into(
    rt: &impl Print,
    version: Version,
    settings: Settings,
    out: &mut [u8],
    room: usize,
) -> io::Result<()> {
    if out.len() < room {
        return Ok(());
    }
    print_written(rt, write_store(version, settings, &mut out[..room]))
}

fn write_list_in(
    rt: &impl Print,
    version: Version,
    count: usize,
    entry: Entry,
    room: usize,
) -> io::Result<()> {
    let entries = [entry; 64];
    let settings = Settings { count, entries };
    let mut out = [0u8; 200];
    write_into(rt, version, settings, &mut out, room)
}

fn write_list(rt: &impl Print, count: usize, entry: Entry, room: usize) -> io::Result<()> {
    write_list_in(rt, Version::One, count, entry, room)
}

fn write_wdf2(rt: &impl Print, sections: usize, architecture: u32) -> io::Result<()> {
    let entry = named(*b"abcaaaaaaaaaaaaa", 3, Kind::Wdf(sections, architecture));
    write_list_in(rt, Version::Two, 1, entry, 200)
}

fn write_case(
    rt: &impl Print,
    case: &[u8],
    count: usize,
    first: Entry,
    room: usize,
) -> io::Result<()> {
    print(rt, case)?;
    write_list(rt, count, first, room)
}

// A record of the name 'abc'.
fn abc(kind: Kind) -> Entry {
    named(*b"abcaaaaaaaaaaaaa", 3, kind)
}

fn write_counts(rt: &impl Print) -> io::Result<()> {
    let cic = abc(Kind::Cic(3, 1, 63));
    write_case(rt, b"empty list", 0, cic, 200)?;
    write_case(rt, b"empty list, short slice", 0, cic, 5)?;
    write_case(rt, b"one record", 1, cic, 21)?;
    write_case(rt, b"one record, short slice", 1, cic, 20)
}

fn write_name(rt: &impl Print, case: &[u8], name: [u8; 16], length: usize) -> io::Result<()> {
    write_case(rt, case, 1, named(name, length, Kind::Cic(3, 1, 63)), 200)
}

fn write_names(rt: &impl Print) -> io::Result<()> {
    write_name(rt, b"no name", *b"abcaaaaaaaaaaaaa", 0)?;
    write_name(rt, b"name of 17", *b"abcaaaaaaaaaaaaa", 17)?;
    write_name(rt, b"capital in a name", *b"aBcaaaaaaaaaaaaa", 3)?;
    write_name(rt, b"capital behind a name", *b"abcDaaaaaaaaaaaa", 3)
}

fn write_twice(rt: &impl Print) -> io::Result<()> {
    let cic = abc(Kind::Cic(3, 1, 63));
    write_case(rt, b"name twice", 2, cic, 200)?;
    write_case(rt, b"name twice, short slice", 2, cic, 0)
}

fn write_kind(rt: &impl Print, case: &[u8], kind: Kind) -> io::Result<()> {
    write_case(rt, case, 1, abc(kind), 200)
}

fn write_kinds(rt: &impl Print) -> io::Result<()> {
    write_kind(rt, b"nine sections", Kind::Wdf(9, 0))?;
    write_kind(rt, b"a nibble beyond the last", Kind::Wdf(1, 0x10))?;
    write_kind(rt, b"one section", Kind::Wdf(1, 0xf))?;
    write_kind(rt, b"a dither in form 1", Kind::Dither(1))?;
    write_kind(rt, b"rate too great", Kind::Cic(3, 1, 65536))
}

fn write_cases(rt: &impl Print) -> io::Result<()> {
    write_counts(rt)?;
    write_names(rt)?;
    write_twice(rt)?;
    write_kinds(rt)
}

fn retired_cases(rt: &impl Print) -> io::Result<()> {
    print(rt, b"form 2, b")?;
    write_wdf2(rt, 1, 0xb)?;
    print(rt, b"form 2, e")?;
    write_wdf2(rt, 1, 0xe)?;
    print(rt, b"form 2, f")?;
    write_wdf2(rt, 2, 0xfc)?;
    print(rt, b"form 2, e and a nibble beyond the last")?;
    write_wdf2(rt, 1, 0x1e)?;
    print(rt, b"form 2, e and nine sections")?;
    write_wdf2(rt, 9, 0xe)
}

// A store moved into the first bytes of a slice.
fn forth_into(rt: &impl Print, text: &[u8], out: &mut [u8], room: usize) -> io::Result<()> {
    if out.len() < room {
        return Ok(());
    }
    print_moved(rt, move_forth(text, &mut out[..room]))
}

fn back_into(rt: &impl Print, text: &[u8], out: &mut [u8], room: usize) -> io::Result<()> {
    if out.len() < room {
        return Ok(());
    }
    print_moved(rt, move_back(text, &mut out[..room]))
}

fn forth_cases(rt: &impl Print) -> io::Result<()> {
    let mut out = [0u8; 64];
    print(rt, b"forth")?;
    forth_into(rt, b"set\t1\ncic\ta\t3\t1\t99\n", &mut out, 20)?;
    print(rt, b"forth, short slice")?;
    forth_into(rt, b"set\t1\ncic\ta\t3\t1\t99\n", &mut out, 19)?;
    print(rt, b"forth, unreadable, short slice")?;
    forth_into(rt, b"set\t1\ncic\ta\t3\t1\t65536\n", &mut out, 0)?;
    print(rt, b"forth from form 2")?;
    forth_into(rt, b"set\t2\ncic\ta\t3\t1\t100\n", &mut out, 64)
}

fn back_cases(rt: &impl Print) -> io::Result<()> {
    let mut out = [0u8; 64];
    print(rt, b"back")?;
    back_into(rt, b"set\t2\ncic\ta\t3\t1\t100\n", &mut out, 19)?;
    print(rt, b"back, short slice")?;
    back_into(rt, b"set\t2\ncic\ta\t3\t1\t100\n", &mut out, 18)?;
    print(rt, b"back, a dither, short slice")?;
    back_into(
        rt,
        b"set\t2\ndither\ta\t31\t1\t2\t3\t4\t5\t6\t7\t8\n",
        &mut out,
        0,
    )?;
    print(rt, b"back, a dither, unreadable")?;
    back_into(
        rt,
        b"set\t2\ndither\ta\t31\t1\t2\t3\t4\t5\t6\t7\t8\nx\n",
        &mut out,
        0,
    )?;
    print(rt, b"back from form 1")?;
    back_into(rt, b"set\t1\ncic\ta\t3\t1\t99\n", &mut out, 64)
}

// Reads until buf is full or the input ends: how many bytes came, put at the start of buf.
fn read_full(input: &mut impl Read, buf: &mut [u8]) -> io::Result<usize>
    ensures count { IfOk result (λ n. n ≤ length buf.new) }
    ensures size { length buf.new ≡ length buf.old }
{
    let mut done: usize = 0;
    while done < buf.len() {
        let n = input.read(&mut buf[done..])?;
        if n == 0 {
            break;
        }
        done += n;
    }
    Ok(done)
}

fn main(rt: HostRuntime) -> io::Result<()> {
    let mut file = [0u8; 65536];
    let n = read_full(&mut rt.stdin(), &mut file)?;
    show_all(&rt, &file[..n])?;
    write_cases(&rt)?;
    retired_cases(&rt)?;
    forth_cases(&rt)?;
    back_cases(&rt)
}
