// The calls. Each answers the number of its refusal, or 0; a refused one leaves all that is lent as it was. A form is 2, and any other number is
// form 1.
ghost use Rattle.std.specs.Prelude.{◌≡◌};
ghost use Rattle.settings_text.specs.Lines.{version_of};
ghost use Rattle.settings_text.specs.Moves.{forth, back};
ghost use Rattle.capi_settings.specs.Fields.{form_number, fields_at, entry_at};
ghost use Rattle.capi_settings.specs.Calls.{read_in, line_found, Counts, Tells, Puts, Sends};

use crate::parts::{entry_in, entry_out, put_at, record_at, version_at};
use store::moving::{move_back, move_forth};
use store_read::reading::{form_of, read_store};
use store_write::saving::write_store;

// The form that a text's first line opens: 2, or 1 also where it opens none.
#[unsafe(no_mangle)]
pub extern "C" fn mittenload_settings_form(text: &[u8]) -> u32
    ensures { result ≡ form_number (version_of text.now) }
{
    u32::from(form_of(text))
}

// The first bad line of a text, from 1; 0 where it is a store of the form.
#[unsafe(no_mangle)]
pub extern "C" fn mittenload_settings_line(form: u32, text: &[u8]) -> usize
    ensures { result ≡ line_found (read_in form text.now) }
{
    match read_store(version_at(form), text) {
        Ok(_) => 0,
        Err(bad) => bad.line,
    }
}

// How many records a store holds.
#[unsafe(no_mangle)]
pub extern "C" fn mittenload_settings_count(form: u32, text: &[u8], count: &mut usize) -> u32
    ensures { Counts form text.now count.old count.new result }
{
    match read_store(version_at(form), text) {
        Ok(settings) => {
            *count = settings.count;
            0
        }
        Err(bad) => bad.refusal.number(),
    }
}

// The record at a place, from 0, into lent fields; where there is none, the length of its name is 0.
#[unsafe(no_mangle)]
pub extern "C" fn mittenload_settings_read(
    form: u32,
    text: &[u8],
    place: usize,
    name: &mut [u8; 16],
    len: &mut usize,
    kind: &mut u32,
    order: &mut u32,
    delay: &mut u32,
    rate: &mut u32,
    sections: &mut usize,
    architecture: &mut u32,
    f: &mut u32,
    a: &mut [i32; 8],
) -> u32
    ensures { Tells form text.now place (fields_at name.old len.old kind.old order.old delay.old rate.old sections.old architecture.old f.old a.old) (fields_at name.new len.new kind.new order.new delay.new rate.new sections.new architecture.new f.new a.new) result }
{
    let settings = match read_store(version_at(form), text) {
        Ok(settings) => settings,
        Err(bad) => return bad.refusal.number(),
    };
    let entry = record_at(settings, place);
    entry_out(
        entry,
        name,
        len,
        kind,
        order,
        delay,
        rate,
        sections,
        architecture,
        f,
        a,
    );
    0
}

// The store with a record put at a place, in the place of the one there or after the last, written to the front of out; how many bytes, to
// count.
#[unsafe(no_mangle)]
pub extern "C" fn mittenload_settings_put(
    form: u32,
    text: &[u8],
    place: usize,
    name: &[u8; 16],
    len: &usize,
    kind: &u32,
    order: &u32,
    delay: &u32,
    rate: &u32,
    sections: &usize,
    architecture: &u32,
    f: &u32,
    a: &[i32; 8],
    out: &mut [u8],
    count: &mut usize,
) -> u32
    ensures { Puts form text.now place (entry_at (fields_at name.now len.now kind.now order.now delay.now rate.now sections.now architecture.now f.now a.now)) out.old count.old out.new count.new result }
{
    let version = version_at(form);
    let held = match read_store(version, text) {
        Ok(settings) => settings,
        Err(bad) => return bad.refusal.number(),
    };
    let entry = entry_in(
        name,
        len,
        kind,
        order,
        delay,
        rate,
        sections,
        architecture,
        f,
        a,
    );
    let settings = put_at(held, place, entry);
    match write_store(version, settings, out) {
        Ok(n) => {
            *count = n;
            0
        }
        Err(refusal) => refusal.number(),
    }
}

// A store of form 1 moved to form 2, to the front of out; how many bytes, to count.
#[unsafe(no_mangle)]
pub extern "C" fn mittenload_settings_forth(text: &[u8], out: &mut [u8], count: &mut usize) -> u32
    ensures { Sends (forth text.now) out.old count.old out.new count.new result }
{
    match move_forth(text, out) {
        Ok(n) => {
            *count = n;
            0
        }
        Err(bad) => bad.refusal.number(),
    }
}

// One of form 2 moved back.
#[unsafe(no_mangle)]
pub extern "C" fn mittenload_settings_back(text: &[u8], out: &mut [u8], count: &mut usize) -> u32
    ensures { Sends (back text.now) out.old count.old out.new count.new result }
{
    match move_back(text, out) {
        Ok(n) => {
            *count = n;
            0
        }
        Err(bad) => bad.refusal.number(),
    }
}
