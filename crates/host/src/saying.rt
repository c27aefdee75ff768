// What is printed. The last line of a program stands in one function, `conclude`. What standard
// output or standard error does not take is lost, and the program goes on; `number_line` tells it.
use crate::{Failure, Told, Word};
use layout::{Refusal, refusals};
use std::{fmt, io};

pub fn text(rt: HostRuntime, bytes: &[u8]) {
    let _ = rt.stdout().write_all(bytes);
}

pub fn number(rt: HostRuntime, n: u64) {
    let _ = print!(rt; "{n}");
}

// A number on a line of its own, for a list that cannot be had again: where it could not be
// written, the reason is told.
pub fn number_line(rt: HostRuntime, n: u64) -> Result<(), Told> {
    println!(rt; "{n}").map_err(|e| fail(rt, b"standard output", &e))
}

// A label and its number.
pub fn labelled(rt: HostRuntime, label: &[u8], n: u64) {
    text(rt, label);
    number(rt, n);
}

// On standard error, which is for reasons.
fn reason(rt: HostRuntime, bytes: &[u8]) {
    let _ = rt.stderr().write_all(bytes);
}

// A reason about what an argument or a file is.
pub fn complain(rt: HostRuntime, what: &[u8], about: &[u8]) -> Told {
    reason(rt, what);
    reason(rt, b": ");
    reason(rt, about);
    reason(rt, b"\n");
    Told
}

// The system's own words of what an error says: std adds the error's number in parentheses.
fn own_words(said: &str) -> &str {
    match said.split_once(" (os error ") {
        Some((words, _)) => words,
        None => said,
    }
}

// The reason why the system did not do something. Where there is no memory for it, its number is
// said too.
pub fn fail(rt: HostRuntime, what: &[u8], why: &io::Error) -> Told {
    match why.to_string(rt.alloc()) {
        Ok(said) => complain(rt, what, own_words(said.as_str()).as_bytes()),
        Err(_) => {
            reason(rt, what);
            let _ = eprintln!(rt; ": {why}");
            Told
        }
    }
}

// A refusal's row by its name in document 01's table, and its place.
#[derive(Clone, Copy)]
struct Row(Refusal);

impl fmt::Display for Row {
    fn fmt<W: fmt::Write>(&self, f: &mut fmt::Formatter<W>) -> fmt::Result {
        match self.0 {
            Refusal::Short => write!(f, "SHORT"),
            Refusal::Foreign => write!(f, "FOREIGN"),
            Refusal::Geometry => write!(f, "GEOMETRY"),
            Refusal::BadLink(chunk) => write!(f, "BAD LINK, chunk {chunk}"),
            Refusal::BadMap(chunk) => write!(f, "BAD MAP, chunk {chunk}"),
            Refusal::Shared(first, second) => write!(f, "SHARED, chunks {first} and {second}"),
            Refusal::Range => write!(f, "RANGE"),
            Refusal::Size => write!(f, "SIZE"),
            Refusal::NoRoom(free) => write!(f, "NO ROOM, free units {free}"),
            Refusal::Small(needed) => write!(f, "SMALL, bytes needed {needed}"),
            Refusal::BadPlan(rule) => write!(f, "BAD PLAN, rule {rule}"),
            Refusal::BadAlarm => write!(f, "BAD ALARM"),
        }
    }
}

impl fmt::Display for Word {
    fn fmt<W: fmt::Write>(&self, f: &mut fmt::Formatter<W>) -> fmt::Result {
        match self {
            Word::Sound => write!(f, "SOUND"),
            Word::Formatted => write!(f, "FORMATTED"),
            Word::Planned => write!(f, "PLANNED"),
            Word::Accepted => write!(f, "ACCEPTED"),
            Word::Carried => write!(f, "CARRIED"),
            Word::Reported => write!(f, "REPORTED"),
            Word::Sounds => write!(f, "SOUNDS"),
            Word::Silent => write!(f, "SILENT"),
            Word::Sized => write!(f, "SIZED"),
            Word::Converted => write!(f, "CONVERTED"),
        }
    }
}

// A refusal: its number on standard output, its name and place on standard error.
fn refused(rt: HostRuntime, r: Refusal) {
    let n = refusals::number(r);
    let _ = eprintln!(rt; "refused: {n} {}", Row(r));
    let _ = println!(rt; "s REFUSED {n}");
}

// The last line of a program, if it has one: an answer that was printed whole has no word for it.
pub fn conclude(rt: HostRuntime, ended: Result<Option<Word>, Failure>) {
    match ended {
        Ok(Some(word)) => {
            let _ = println!(rt; "s {word}");
        }
        Ok(None) => {}
        Err(Failure::Refused(r)) => refused(rt, r),
        Err(Failure::Unreadable) => text(rt, b"s UNREADABLE\n"),
    }
}
