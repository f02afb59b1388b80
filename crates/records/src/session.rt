// What a line does to the filter, and what it is answered.
ghost use Rattle.std.specs.Prelude.{◌≡◌};
ghost use Rattle.words.specs.Words.{wrap};
ghost use Rattle.blocks.specs.Refusals.{number_in};
ghost use Rattle.records.specs.Sessions.{
  width_of,
  shown,
  kept_words,
  refuse,
  refuse_at,
  kept,
  told_by,
  making,
  rating,
  clearing,
  stepping,
  take_of,
  line_of,
};

use crate::parse::{Fault, Record, parse};
use blocks::Refusal;
use cic::state::Cic;
use cic::steps::Output;
use words::casts::i64_as_i32;

// The filter, once a `cic` or `cic64` record has made it, and whether that was `cic64`. It computes with words of 64 bits
// for either; after `cic` they are read in 32, where they are what words of 32 bits would be.
#[derive(Clone, Copy)]
pub struct Session {
    pub opened: bool,
    pub wide: bool,
    pub filter: Cic<i64>,
}

// What a line is answered: nothing, an output with the count that it tells, or what is wrong with it.
#[derive(Clone, Copy)]
pub enum Reply {
    Silent,
    Output(Output<i64>),
    Bad(Fault),
}

// The session after a line, and the line's answer.
#[derive(Clone, Copy)]
pub struct Taken {
    pub session: Session,
    pub reply: Reply,
}

// A value of the filter's read in the word, i64 or i32.
pub fn read_in(wide: bool, v: i64) -> i64
    ensures { result ≡ wrap (width_of wide) v }
{
    if wide {
        return v;
    }
    i64::from(i64_as_i32(v))
}

// An output whose value is read in the word.
fn output_in(wide: bool, y: Output<i64>) -> Output<i64>
    ensures { result ≡ shown wide y }
{
    Output {
        value: read_in(wide, y.value),
        told: y.told,
        number: y.number,
    }
}

fn refused_at(s: Session, fault: Fault) -> Taken
    ensures { result ≡ refuse_at s fault }
{
    Taken {
        session: s,
        reply: Reply::Bad(fault),
    }
}

fn refused(s: Session, number: u32) -> Taken
    ensures { result ≡ refuse s number }
{
    refused_at(s, Fault { number, place: 0 })
}

fn with_filter(wide: bool, filter: Cic<i64>, reply: Reply) -> Taken
    ensures { result ≡ kept wide filter reply }
{
    let session = Session {
        opened: true,
        wide,
        filter,
    };
    Taken { session, reply }
}

// A call on the filter left this state and gave this answer.
fn told(s: Session, wide: bool, filter: Cic<i64>, answer: Result<(), Refusal>) -> Taken
    ensures { result ≡ told_by s wide filter (number_in answer) }
{
    match answer {
        Ok(()) => with_filter(wide, filter, Reply::Silent),
        Err(refusal) => refused(s, refusal.number()),
    }
}

fn make(s: Session, wide: bool, order: u32, delay: u32, rate: u32) -> Taken
    ensures { result ≡ making kept_words s wide order delay rate }
{
    match Cic::new(order as usize, delay as usize, rate) {
        Ok(filter) => with_filter(wide, filter, Reply::Silent),
        Err(refusal) => refused(s, refusal.number()),
    }
}

fn change_rate(s: Session, rate: u32) -> Taken
    ensures { result ≡ rating kept_words s rate }
{
    let mut filter = s.filter;
    let answer = filter.set_rate(rate);
    told(s, s.wide, filter, answer)
}

fn clear_filter(s: Session) -> Taken
    ensures { result ≡ clearing kept_words s }
{
    let mut filter = s.filter;
    let answer = filter.clear();
    told(s, s.wide, filter, answer)
}

fn take_sample(s: Session, x: i64) -> Taken
    ensures { result ≡ stepping kept_words s x }
{
    let mut filter = s.filter;
    match filter.decimate(x) {
        Ok(Some(y)) => with_filter(s.wide, filter, Reply::Output(output_in(s.wide, y))),
        Ok(None) => with_filter(s.wide, filter, Reply::Silent),
        Err(refusal) => refused(s, refusal.number()),
    }
}

// A record of a session's line. Refused as it is bad, with 71 before a `cic` or `cic64` record or for a second one of
// either, then with the filter's own number; a refused record changes nothing.
fn take_record(s: Session, r: Record) -> Taken
    ensures { result ≡ take_of kept_words s r }
{
    let opened = s.opened;
    match r {
        Record::Open(wide, n, m, rate) => {
            if opened {
                refused(s, 71)
            } else {
                make(s, wide, n, m, rate)
            }
        }
        Record::Rate(rate) => {
            if opened {
                change_rate(s, rate)
            } else {
                refused(s, 71)
            }
        }
        Record::Sample(x) => {
            if opened {
                take_sample(s, x)
            } else {
                refused(s, 71)
            }
        }
        Record::Clear => {
            if opened {
                clear_filter(s)
            } else {
                refused(s, 71)
            }
        }
        Record::Bad(fault) => refused_at(s, fault),
    }
}

// A line that its newline ends, given without the newline. Refused with 72 where it is over 64 bytes, else as its
// record is.
pub fn take_line(s: Session, line: &[u8]) -> Taken
    ensures { result ≡ line_of kept_words s line.now }
{
    if 64 < line.len() {
        return refused(s, 72);
    }
    take_record(s, parse(s.wide, line))
}
