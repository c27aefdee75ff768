// The programs that plan a request, check a plan, and carry one out: what each does with its
// arguments, and its last line.
use crate::carrying::carry_file;
use crate::planning::{check_file, plan_file};
use host::saying::conclude;
use host::{Failure, Word, arguments};

fn plan_one(rt: HostRuntime) -> Result<Option<Word>, Failure> {
    let usage = b"plan IMAGE PLANFILE write CHUNK SIZE | discard CHUNK";
    let request = arguments::request(rt, 3, usage)?;
    plan_file(rt, request)
}

// Plans a request into a new file, and prints the plan.
pub fn plan(rt: HostRuntime) {
    conclude(rt, plan_one(rt));
}

fn check_one(rt: HostRuntime) -> Result<Option<Word>, Failure> {
    let usage = b"check_plan IMAGE PLANFILE write CHUNK SIZE | discard CHUNK";
    let request = arguments::request(rt, 3, usage)?;
    check_file(rt, request)
}

// Checks a plan for a request.
pub fn check_plan(rt: HostRuntime) {
    conclude(rt, check_one(rt));
}

// Argument 3 says of how many steps.
fn carry_one(rt: HostRuntime) -> Result<Option<Word>, Failure> {
    let usage = b"carry_out IMAGE PLANFILE N write CHUNK SIZE | discard CHUNK";
    let request = arguments::request(rt, 4, usage)?;
    let n = arguments::number(rt, 3)?;
    carry_file(rt, request, n)
}

// Carries out the first steps of a plan on an image file, in place.
pub fn carry_out(rt: HostRuntime) {
    conclude(rt, carry_one(rt));
}
