// The recorder's desk: what a record does, and what it is answered.
ghost use Rattle.std.specs.Prelude.{◌≡◌, [], ◌∷◌};
ghost use Rattle.desk.specs.Desks.{
  start_desk,
  refuse,
  keep,
  ready_taken,
  readied,
  so_far,
  open_taken,
  word_taken,
  words_taken,
  event_answer,
  kind_taken,
  taken_of,
};

use crate::lines::{Kind, Record, read_record};
use crate::saved::load;
use blocks::Refusal;
use cic::runs::Written;
use cic::steps::Output;
use recorder::recorder::Recorder;
use words::casts::{u32_as_i32, u64_as_u32};
use words::unsigned::add_u32;

// The recorder, once a record has opened it, and whether no refusal has stopped it.
#[derive(Clone, Copy)]
pub struct Desk {
    pub opened: bool,
    pub going: bool,
    pub recorder: Recorder,
}

// What a record is answered.
#[derive(Clone, Copy)]
pub enum Reply {
    Silent,
    Output(Output<i64>),
    Saved,
    Bad(Refusal),
}

// The desk after a record, and its answer.
#[derive(Clone, Copy)]
pub struct Taken {
    pub desk: Desk,
    pub reply: Reply,
}

fn refused(d: Desk, refusal: Refusal) -> Taken
    ensures { result ≡ refuse d refusal }
{
    let recorder = d.recorder;
    let desk = Desk {
        opened: d.opened,
        going: false,
        recorder,
    };
    Taken {
        desk,
        reply: Reply::Bad(refusal),
    }
}

fn with_recorder(recorder: Recorder, reply: Reply) -> Taken
    ensures { result ≡ keep recorder reply }
{
    let desk = Desk {
        opened: true,
        going: true,
        recorder,
    };
    Taken { desk, reply }
}

// The call left this recorder and gave this answer.
fn answered(d: Desk, recorder: Recorder, answer: Result<(), Refusal>) -> Taken
    ensures { result ≡ ready_taken d recorder answer }
{
    match answer {
        Ok(()) => with_recorder(recorder, Reply::Silent),
        Err(refusal) => refused(d, refusal),
    }
}

// The call made this recorder, or was refused.
fn readied(d: Desk, made: Result<Recorder, Refusal>) -> Taken
    ensures { result ≡ readied d made }
{
    match made {
        Ok(recorder) => with_recorder(recorder, Reply::Silent),
        Err(refusal) => refused(d, refusal),
    }
}

// The low 32 bits of the number of words so far.
fn so_far(d: Desk) -> u32
    ensures { result ≡ so_far d }
{
    let r = d.recorder;
    let f = r.filter;
    u64_as_u32(f.inputs)
}

// A record that opens the recorder: N and M in 8 bits each, the rate in 16.
fn open(d: Desk, number: u32, argument: u32) -> Taken
    ensures { result ≡ open_taken d number argument }
{
    if d.opened {
        return refused(d, Refusal::Opening);
    }
    if number != 0 {
        return refused(d, Refusal::RecordNumber);
    }
    let order = argument / 16777216;
    let delay = argument / 65536 % 256;
    let r = Recorder::open(order as usize, delay as usize, argument % 65536);
    readied(d, r)
}

// The recorder after a word, and the word's output, if any.
fn word_taken(d: Desk, value: i64, recorder: Recorder, wrote: Result<Written, Refusal>) -> Taken
    ensures { result ≡ word_taken d recorder (value ∷ []) wrote }
{
    match wrote {
        Ok(w) => {
            if w.count == 0 {
                return with_recorder(recorder, Reply::Silent);
            }
            let y = Output {
                value,
                told: w.told,
                number: w.number,
            };
            with_recorder(recorder, Reply::Output(y))
        }
        Err(refusal) => refused(d, refusal),
    }
}

// A word. Refused with 71 before the recorder is opened, 85 where it isn't the next one, then as the recorder refuses.
fn word(d: Desk, number: u32, x: i32) -> Taken
    ensures { result ≡ words_taken d number x }
{
    if !d.opened {
        return refused(d, Refusal::Opening);
    }
    if number != add_u32(so_far(d), 1) {
        return refused(d, Refusal::RecordNumber);
    }
    let words = [x; 1];
    let mut turns = [0i64; 1];
    let mut out = [0i64; 1];
    let mut recorder = d.recorder;
    let wrote = recorder.take(&words, &mut turns, &mut out);
    word_taken(d, out[0], recorder, wrote)
}

// Whether a record that isn't a word stands at its place. Refused with 76 where it has an argument, 71, 85.
fn event(d: Desk, number: u32, argument: u32) -> Result<(), Refusal>
    ensures { result ≡ event_answer d number argument }
{
    if argument != 0 {
        return Err(Refusal::OutOfRange);
    }
    if !d.opened {
        return Err(Refusal::Opening);
    }
    if number != so_far(d) {
        return Err(Refusal::RecordNumber);
    }
    Ok(())
}

fn rate(d: Desk, number: u32, argument: u32) -> Taken
    ensures { result ≡ kind_taken d Kind.Rate number argument }
{
    if let Err(refusal) = event(d, number, 0) {
        return refused(d, refusal);
    }
    let mut recorder = d.recorder;
    let answer = recorder.set_rate(argument);
    answered(d, recorder, answer)
}

fn pull(d: Desk, number: u32, argument: u32) -> Taken
    ensures { result ≡ kind_taken d Kind.Pull number argument }
{
    if let Err(refusal) = event(d, number, argument) {
        return refused(d, refusal);
    }
    let mut recorder = d.recorder;
    recorder.pull();
    with_recorder(recorder, Reply::Silent)
}

fn push(d: Desk, number: u32, argument: u32) -> Taken
    ensures { result ≡ kind_taken d Kind.Push number argument }
{
    if let Err(refusal) = event(d, number, argument) {
        return refused(d, refusal);
    }
    let mut recorder = d.recorder;
    let answer = recorder.push();
    answered(d, recorder, answer)
}

fn save(d: Desk, number: u32, argument: u32) -> Taken
    ensures { result ≡ kind_taken d Kind.Save number argument }
{
    if let Err(refusal) = event(d, number, argument) {
        return refused(d, refusal);
    }
    with_recorder(d.recorder, Reply::Saved)
}

// A record of a kind.
fn take_kind(d: Desk, kind: Kind, number: u32, argument: u32) -> Taken
    ensures { result ≡ kind_taken d kind number argument }
{
    match kind {
        Kind::Word => word(d, number, u32_as_i32(argument)),
        Kind::Open => open(d, number, argument),
        Kind::Rate => rate(d, number, argument),
        Kind::Pull => pull(d, number, argument),
        Kind::Push => push(d, number, argument),
        Kind::Save => save(d, number, argument),
        Kind::Unknown => refused(d, Refusal::UnknownRecord),
    }
}

// A record's bytes: 18, or 1282 where they begin with `c`.
pub fn take_record(d: Desk, bytes: &[u8]) -> Taken
    ensures { result ≡ taken_of d bytes.now }
{
    if bytes.len() == 1282 {
        let loaded = load(bytes);
        return readied(d, loaded);
    }
    let r = read_record(bytes);
    match r {
        Record::Is(kind, number, argument) => take_kind(d, kind, number, argument),
        Record::Bad(refusal) => refused(d, refusal),
    }
}

impl Desk {
    // Before the first record.
    pub fn start() -> Desk
        ensures { result ≡ start_desk }
    {
        Desk {
            opened: false,
            going: true,
            recorder: Recorder::blank(),
        }
    }
}
