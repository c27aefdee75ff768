// Plans: made, printed in words, and checked.
ghost use Rattle.std.specs.Prelude.{◌≡◌, length};
ghost use Rattle.planner.specs.Planner.{plan_answer, plan_out};
ghost use Rattle.rules.specs.Rules.{checked};
ghost use Rattle.plans.specs.Checks.{check_outcome};

use crate::{OWN_PLAN_ROOM, PLAN_ROOM};
use checker::check::check;
use host::making::make_file;
use host::reading::read_file;
use host::saying::text;
use host::{Failure, ReadError, Word};
use layout::geometry::head;
use layout::trailers::check_trailer;
use layout::{MAX_IMAGE_BYTES, Refusal};
use planner::plan::{plan_discard, plan_write};
use steps::reading::step_at;
use steps::{Request, STEP_BYTES, Step};

// What a MAP or LINK step stores, at the end of its line.
fn stored(rt: HostRuntime, label: &str, value: Option<u32>) {
    let _ = match value {
        Some(n) => println!(rt; " {label} {n}"),
        None => println!(rt; " absent"),
    };
}

// A step on a line. The value of a MAP step is a unit, or a size in the `head` words before the
// units.
fn step_line(rt: HostRuntime, step: Option<Step>, head: u32) {
    match step {
        Some(Step::Data { unit, piece, .. }) => {
            let _ = println!(rt; "data unit {unit} piece {piece}");
        }
        Some(Step::Map { map, word, value }) => {
            let _ = print!(rt; "map {map} word {word}");
            stored(rt, if word < head { "size" } else { "unit" }, value);
        }
        Some(Step::Link { chunk, value }) => {
            let _ = print!(rt; "link chunk {chunk}");
            stored(rt, "map", value);
        }
        Some(Step::Fence) => text(rt, b"fence\n"),
        None => text(rt, b"malformed\n"),
    }
}

// The steps of a plan, one a line. `head` is how many words of a map stand before its units.
fn step_lines(rt: HostRuntime, plan: &[u8], head: u32) {
    for i in 0..plan.len() / STEP_BYTES {
        step_line(rt, step_at(plan, i), head);
    }
}

// How many words of a map of an image stand before its units.
fn head_of(image: &[u8]) -> u32 {
    match check_trailer(image) {
        Ok(g) => head(g),
        Err(_) => 0,
    }
}

// The planner's plan for a request.
fn plan_for(image: &[u8], request: Request, room: &mut [u8]) -> Result<u32, Refusal>
    ensures value { result ≡ plan_answer image.now request (length room.old) }
    ensures room_after { room.new ≡ plan_out image.now request room.old }
{
    match request {
        Request::Write { chunk, size } => plan_write(image, chunk, size, room),
        Request::Discard { chunk } => plan_discard(image, chunk, room),
    }
}

// Plans a request on an image, makes the file that argument 2 names of the plan, and then prints it:
// what is printed is there.
fn plan_image(rt: HostRuntime, image: &[u8], request: Request) -> Result<Option<Word>, Failure> {
    let mut room = [0u8; OWN_PLAN_ROOM];
    let n = plan_for(image, request, &mut room)?;
    let plan = &room[..STEP_BYTES * n as usize];
    make_file(rt, 2, plan)?;
    step_lines(rt, plan, head_of(image));
    Ok(Some(Word::Planned))
}

// Plans a request on the image that argument 1 names.
pub(crate) fn plan_file(rt: HostRuntime, request: Request) -> Result<Option<Word>, Failure> {
    let mut image = [0u8; MAX_IMAGE_BYTES];
    let length = read_file(rt, 1, &mut image)?;
    plan_image(rt, &image[..length], request)
}

fn check_image(image: &[u8], request: Request, plan: &[u8]) -> Result<Option<Word>, Failure>
    ensures { result ≡ check_outcome (checked image.now request plan.now) }
{
    check(image, request, plan)?;
    Ok(Some(Word::Accepted))
}

// Checks a plan on the image that argument 1 names. In a frame of its own, as `carry_plan` is.
#[inline(never)]
fn check_plan(rt: HostRuntime, request: Request, plan: &[u8]) -> Result<Option<Word>, Failure> {
    let mut image = [0u8; MAX_IMAGE_BYTES];
    let length = read_file(rt, 1, &mut image)?;
    check_image(&image[..length], request, plan)
}

// Checks the plan that argument 2 names. Of a longer one its first 65 steps get the same answer.
pub(crate) fn check_file(rt: HostRuntime, request: Request) -> Result<Option<Word>, Failure> {
    let mut plan = [0u8; PLAN_ROOM];
    let length = match read_file(rt, 2, &mut plan) {
        Err(ReadError::Long) => PLAN_ROOM,
        read => read?,
    };
    check_plan(rt, request, &plan[..length])
}
