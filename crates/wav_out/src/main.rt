// The replay program's answer on standard input becomes a WAV file on standard output. A first line says how: `wav`, samples
// a second, k, and `settled` or `all`, parted by tabs. Each `y` line's value divided by 2^k, rounded down, is a sample; told a
// count above 0 it is left out where `settled` is asked for, and written where `all` is. Without them the samples after a
// `rate` record move up by so many; with them the time is kept, and they are not to be believed.
//
// A refusal is answered by a line of `bad`, a tab, the number, a tab and the input's line: 90 for a first line of another form
// or a rate that no header has, for a line that is no answer of the replay's, for an input without its `end` line at the end or
// with another count there, for more data than a header can tell; 91 for a sample outside i16; the replay's own number and line where it
// was refused itself.
//
// A header tells the size of the data that follow, which is known at the end: so the output is a file, empty at first, that
// begins with 44 zeros until all is read and no refusal is left. Only then does it get its header. Where anything is refused it is
// emptied and holds the `bad` line alone. A file that isn't empty is 90 at line 0, behind what it holds, and so is an output that
// can't be sought, as a pipe; but where the first argument is `pipe`, header and data are written to that at the end, or the `bad`
// line alone, and until then the data are held in memory.

#![tactic(auto)]

ghost use Rattle.std.specs.Prelude.{◌≤◌, length, IfOk};

use blocks::Refusal;
use std::fs::File;
use std::io::{Read, Seek, SeekFrom, Write};
use std::rt::Env;
use std::{fs, io};
use text::comparing::same_bytes;
use wav::header::write_header;
use wav::samples::write_part;
use wav_lines::answers::{Line, Output, Refusal as Bad, Setting, read_line};
use wav_lines::divide;

// What a line is taken for: the first, an answer, or none any more behind `end`.
#[derive(Clone, Copy, Debug, PartialEq, Eq)]
enum Stage {
    First,
    Answers(Setting),
    Ended(Setting),
}

// The samples that a header can tell the size of.
const MOST: u32 = 1073741500;

// Where the work stands: the lines and outputs so far, the samples so far, and how many of them are held in the part.
#[derive(Drop)]
struct Taking {
    stage: Stage,
    lines: u64,
    outputs: u64,
    samples: u32,
    part: [i32; 16384],
    held: usize,
    ghost counted: { samples ≤ 1073741500 },
    ghost inside: { held ≤ 16384 },
}

impl Taking {
    fn new() -> Taking {
        Taking {
            stage: Stage::First,
            lines: 0,
            outputs: 0,
            samples: 0,
            part: [0i32; 16384],
            held: 0,
        }
    }

    // A refusal at the line that was taken last.
    fn bad(&self, refusal: Refusal) -> Bad {
        Bad {
            line: self.lines,
            number: u64::from(refusal.number()),
        }
    }

    // The settings: there must be a header with the rate.
    fn open(&mut self, setting: Setting) -> Result<(), Bad> {
        let mut head = [0u8; 44];
        match write_header(setting.rate, 0, &mut head) {
            Ok(()) => {
                self.stage = Stage::Answers(setting);
                Ok(())
            }
            Err(refusal) => Err(self.bad(refusal)),
        }
    }

    // An output: a sample more in the part, unless it is not wanted.
    fn output(&mut self, setting: Setting, output: Output) -> Result<(), Bad> {
        self.outputs = self.outputs.wrapping_add(1);
        if setting.most < output.told {
            return Ok(());
        }
        let Some(x) = divide(output.value, setting.shift) else {
            return Err(self.bad(Refusal::SampleRange));
        };
        if MOST <= self.samples || self.part.len() <= self.held {
            return Err(self.bad(Refusal::FileForm));
        }
        self.part[self.held] = x;
        self.samples += 1;
        self.held += 1;
        Ok(())
    }

    // The replay is over after so many outputs.
    fn end(&mut self, setting: Setting, count: u64) -> Result<(), Bad> {
        if count != self.outputs {
            return Err(self.bad(Refusal::FileForm));
        }
        self.stage = Stage::Ended(setting);
        Ok(())
    }

    // The next line.
    fn line(&mut self, bytes: &[u8]) -> Result<(), Bad> {
        self.lines = self.lines.wrapping_add(1);
        match (self.stage, read_line(bytes)) {
            (Stage::First, Some(Line::Settings(setting))) => self.open(setting),
            (Stage::Answers(setting), Some(Line::Output(output))) => self.output(setting, output),
            (Stage::Answers(setting), Some(Line::End(count))) => self.end(setting, count),
            (Stage::Answers(_), Some(Line::Bad(bad))) => Err(bad),
            _ => Err(self.bad(Refusal::FileForm)),
        }
    }

    // The lines that bytes hold, each ended by a newline; gives how many bytes stand behind them, a line without its end.
    fn take(&mut self, bytes: &[u8]) -> Result<usize, Bad>
        ensures { IfOk result (λ kept. kept ≤ length bytes.now) }
    {
        let mut rest = bytes;
        while let Some(end) = rest.iter().position(|&b| b == b'\n') {
            self.line(&rest[..end])?;
            rest = &rest[end + 1..];
        }
        Ok(rest.len())
    }

    // The samples that are held, written.
    fn give(&mut self, to: &mut impl Write, out: &mut [u8]) -> io::Result<()> {
        let wrote = write_part(&self.part[..self.held], out).unwrap_or(0);
        to.write_all(&out[..wrote])?;
        self.held = 0;
        Ok(())
    }

    // The input is over, with so many bytes of a line without its end: it must have ended with its `end` line. Gives the header.
    fn over(&self, kept: usize) -> Result<[u8; 44], Bad> {
        let Stage::Ended(setting) = self.stage else {
            return Err(self.cut_off());
        };
        if 0 < kept {
            return Err(self.cut_off());
        }
        let mut head = [0u8; 44];
        match write_header(setting.rate, 2 * self.samples, &mut head) {
            Ok(()) => Ok(head),
            Err(refusal) => Err(self.bad(refusal)),
        }
    }

    // A refusal at the line that did not come.
    fn cut_off(&self) -> Bad {
        Bad {
            line: self.lines.wrapping_add(1),
            number: u64::from(Refusal::FileForm.number()),
        }
    }
}

// The whole input, its samples written part by part. Gives their header, or what refuses them.
fn run(
    input: &mut impl Read,
    to: &mut impl Write,
    taking: &mut Taking,
) -> io::Result<Result<[u8; 44], Bad>> {
    let mut buffer = [0u8; 65536];
    let mut out = [0u8; 32768];
    let mut kept: usize = 0;
    for _ in 0..u64::MAX {
        // A line that fills the buffer ends the input.
        if buffer.len() <= kept {
            break;
        }
        let n = input.read(&mut buffer[kept..])?;
        if n == 0 {
            break;
        }
        let all = kept + n;
        let taken = taking.take(&buffer[..all]);
        taking.give(to, &mut out)?;
        kept = match taken {
            Ok(kept) => kept,
            Err(bad) => return Ok(Err(bad)),
        };
        buffer.copy_within(all - kept..all, 0);
    }
    Ok(taking.over(kept))
}

// The bytes of a line that refuses.
fn put_refusal(to: &mut impl Write, bad: Bad) -> io::Result<()> {
    let number = bad.number;
    let line = bad.line;
    writeln!(to, "bad\t{number}\t{line}")
}

// The file is emptied and holds the refusal alone.
fn refuse(file: &mut File, bad: Bad) -> io::Result<()> {
    file.set_len(0)?;
    file.seek(SeekFrom::Start(0))?;
    put_refusal(file, bad)
}

// To a file, empty so far, that standard output is, too. That stands at the front unless it only appends, which shows where it, too, writes
// zeros: then it gets no header.
fn into_file(rt: &HostRuntime, file: &mut File, taking: &mut Taking) -> io::Result<()> {
    let zeros = [0u8; 44];
    file.write_all(&zeros)?;
    rt.write_all(&zeros)?;
    let about = file.metadata()?;
    let appends = about.len() == 88;
    file.set_len(44)?;
    match run(&mut rt.stdin(), file, taking)? {
        Err(bad) => refuse(file, bad),
        Ok(_) if appends => refuse(file, taking.bad(Refusal::FileForm)),
        Ok(head) => {
            file.seek(SeekFrom::Start(0))?;
            file.write_all(&head)
        }
    }
}

// To an output that can't be sought, as a pipe: the data are held until the input is over, and then follow their header.
fn into_pipe(rt: &HostRuntime, taking: &mut Taking) -> io::Result<()> {
    let mut held = Vec::new(rt.alloc());
    match run(&mut rt.stdin(), &mut held, taking)? {
        Err(bad) => put_refusal(&mut rt.stdout(), bad),
        Ok(head) => {
            rt.write_all(&head)?;
            rt.write_all(&held)
        }
    }
}

// Whether the first argument is `pipe`.
fn pipe_asked(rt: &impl Env) -> bool {
    let mut word = [0u8; 8];
    match rt.arg(1, &mut word) {
        Ok(n) => same_bytes(&word[..n], b"pipe"),
        Err(_) => false,
    }
}

// The refusal of an output that is no empty file.
fn no_output() -> Bad {
    Bad {
        line: 0,
        number: u64::from(Refusal::FileForm.number()),
    }
}

// An output that can't be sought is refused, but where the first argument asks for a pipe.
fn no_file(rt: &HostRuntime, taking: &mut Taking) -> io::Result<()> {
    if pipe_asked(rt) {
        return into_pipe(rt, taking);
    }
    put_refusal(&mut rt.stdout(), no_output())
}

fn main(rt: HostRuntime) -> io::Result<()> {
    // One for either way out: two would both stand on the stack.
    let mut taking = Taking::new();
    let Ok(about) = fs::metadata(&rt, "/dev/stdout") else {
        return no_file(&rt, &mut taking);
    };
    if !about.is_file() {
        return no_file(&rt, &mut taking);
    }
    if about.len() != 0 {
        let mut file = File::options().append(true).open(&rt, "/dev/stdout")?;
        return put_refusal(&mut file, no_output());
    }
    let Ok(mut file) = File::options().write(true).open(&rt, "/dev/stdout") else {
        return no_file(&rt, &mut taking);
    };
    into_file(&rt, &mut file, &mut taking)
}
