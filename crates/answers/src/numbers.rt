// Answers as numbers.
ghost use Rattle.std.specs.Prelude.{◌≡◌, ℕ, ◌≤◌, List, IfOk};
ghost use Rattle.image.specs.Loading.{loaded};
ghost use Rattle.image.specs.Outcomes.{outcome};
ghost use Rattle.answers.specs.Numbers;

use crate::{Answer, Opened, ReportAnswer, ShapeAnswer};
use access::{Access, Extent};
use indexed::HeldShape;
use layout::{Refusal, Shape, refusals};
use report::{Alarm, Report};

// An answer with its value and extent.
pub fn given(value: u64, extent: u64) -> Answer
    ensures { result ≡ Numbers.given value extent }
{
    Answer {
        number: 0,
        place: 0,
        second: 0,
        value,
        extent,
    }
}

// A refusal with its number and place.
pub fn refused(r: Refusal) -> Answer
    ensures { result ≡ Numbers.refused r }
{
    let number = refusals::number(r) as u64;
    let place = refusals::place(r) as u64;
    let second = refusals::second_place(r) as u64;
    Answer {
        number,
        place,
        second,
        value: 0,
        extent: 0,
    }
}

// An answer with no value.
pub fn done(x: Result<(), Refusal>) -> Answer
    ensures { result ≡ Numbers.done_answer x }
{
    match x {
        Ok(()) => given(0, 0),
        Err(why) => refused(why),
    }
}

// An answer of one number.
pub fn counted(x: Result<u32, Refusal>) -> Answer
    ensures { result ≡ Numbers.counted_answer x }
{
    match x {
        Ok(n) => given(n as u64, 0),
        Err(r) => refused(r),
    }
}

// As it is: the same of a size, for a generic over `Into<u64>` promises what its bound's ghost member says, and each of its seven callers would have to open that.
pub fn stored(x: Result<u64, Refusal>) -> Answer
    ensures { result ≡ Numbers.counted_answer x }
{
    match x {
        Ok(n) => given(n, 0),
        Err(r) => refused(r),
    }
}

pub fn access(x: Result<Access, Refusal>) -> Answer
    ensures { result ≡ Numbers.access_answers x }
{
    match x {
        Ok(Access::Nothing) => given(0, 0),
        Ok(Access::Zeros) => given(1, 0),
        Ok(Access::Chunk) => given(2, 0),
        Err(r) => refused(r),
    }
}

pub fn held(x: Result<Extent, Refusal>) -> Answer
    requires { IfOk x (λ e. e.start ≤ e.end) }
    ensures { result ≡ Numbers.held_answer x }
{
    match x {
        Ok(e) => given(e.start as u64, (e.end - e.start) as u64),
        Err(r) => refused(r),
    }
}

pub fn alarm(x: Result<Alarm, Refusal>) -> Answer
    ensures { result ≡ Numbers.alarm_answers x }
{
    match x {
        Ok(Alarm::Silent) => given(0, 0),
        Ok(Alarm::Sounds) => given(1, 0),
        Err(r) => refused(r),
    }
}

// The shape of a sound image beside number 0; of any other the refusal's numbers, and 0 for the shape's.
pub fn shape(x: Result<Shape, Refusal>) -> ShapeAnswer
    ensures { (s : List ℕ) → x ≡ outcome s → result ≡ Numbers.shape_answer (loaded s) }
{
    match x {
        Ok(g) => ShapeAnswer {
            number: 0,
            place: 0,
            second: 0,
            edition: g.edition as u64,
            p: g.p as u64,
            c: g.c as u64,
            m: g.m as u64,
            n: g.n as u64,
            r: g.r as u64,
        },
        Err(r) => {
            let a = refused(r);
            ShapeAnswer {
                number: a.number,
                place: a.place,
                second: a.second,
                edition: 0,
                p: 0,
                c: 0,
                m: 0,
                n: 0,
                r: 0,
            }
        }
    }
}

pub fn reported(x: Result<Report, Refusal>) -> ReportAnswer
    ensures { result ≡ Numbers.reported_answer x }
{
    match x {
        Ok(figures) => ReportAnswer {
            number: 0,
            place: 0,
            second: 0,
            mapped: figures.mapped as u64,
            held: figures.held as u64,
            free: figures.free as u64,
            saved: figures.saved as u64,
            held_ratio: figures.held_ratio,
            saved_ratio: figures.saved_ratio,
        },
        Err(r) => {
            let a = refused(r);
            ReportAnswer {
                number: a.number,
                place: a.place,
                second: a.second,
                mapped: 0,
                held: 0,
                free: 0,
                saved: 0,
                held_ratio: 0.0,
                saved_ratio: 0.0,
            }
        }
    }
}

// The shape of an image that was opened beside number 0; of any other the refusal's numbers, and 0 for the shape's.
pub fn opened(x: Result<Shape, Refusal>) -> Opened
    ensures { result ≡ Numbers.opened_answer x }
{
    match x {
        Ok(g) => Opened {
            answer: given(0, 0),
            index: HeldShape::from(g),
        },
        Err(r) => Opened {
            answer: refused(r),
            index: HeldShape {
                edition: 0,
                p: 0,
                c: 0,
                m: 0,
                n: 0,
                r: 0,
            },
        },
    }
}
