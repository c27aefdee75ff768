// The indexed calls, where the words of the sets are lent: the shape that the index holds, the words, and then what the scanning call takes. Each promise is
// for every index: with a stale or made-up one, or an image altered otherwise, a call ends inside its slices and a refusal alters nothing lent, and it may answer
// by what is free no longer.
ghost use Rattle.std.specs.Prelude.{◌≡◌, ◌≤◌, length, IfOk};
ghost use Rattle.indexed.specs.Calls.{index_held, plan_answer_by, plan_out_by, checked_by, carry_answer_by, carry_image_by, next_sets, access_answer_by, held_of_by, size_answer_by, report_answer_by, alarm_answer_by};

use crate::HeldShape;
use crate::admit::{admit, admit_chunk};
use crate::carrying::carry_on;
use crate::sets::free_in;
use access::parts::held_on;
use access::ranges::access_on;
use access::sizes::size_on;
use access::{Access, Extent};
use checker::check::judge;
use image::Image;
use layout::Refusal;
use planner::plan::{discard_on, write_on};
use report::alarms::alarm_on;
use report::reports::report_on;
use report::{Alarm, Level, Report};
use steps::Request;
use steps::requests::chunk_of;

// Plans a write of `size` compressed bytes to a chunk, and stores the plan in `out`: refusals 1 to 4 and 7 to 10.
pub fn plan_write(
    h: HeldShape,
    sets: &[u64],
    image: &[u8],
    chunk: u64,
    size: u64,
    out: &mut [u8],
) -> Result<u32, Refusal>
    ensures value { result ≡ plan_answer_by (index_held h sets.now) image.now (Request.Write chunk size) (length out.old) }
    ensures out_after { out.new ≡ plan_out_by (index_held h sets.now) image.now (Request.Write chunk size) out.old }
{
    let g = admit_chunk(h, sets.len(), image, chunk)?;
    write_on(g, &free_in(sets), chunk, size, out)
}

// Plans a discard of a chunk, and stores the plan in `out`: refusals 1 to 4, 7 and 10.
pub fn plan_discard(
    h: HeldShape,
    sets: &[u64],
    image: &[u8],
    chunk: u64,
    out: &mut [u8],
) -> Result<u32, Refusal>
    ensures value { result ≡ plan_answer_by (index_held h sets.now) image.now (Request.Discard chunk) (length out.old) }
    ensures out_after { out.new ≡ plan_out_by (index_held h sets.now) image.now (Request.Discard chunk) out.old }
{
    let g = admit_chunk(h, sets.len(), image, chunk)?;
    let mapped = Image {
        bytes: image,
        shape: g,
    }
    .is_mapped(chunk);
    discard_on(g, mapped, chunk, out)
}

// Whether a plan keeps the five rules for a request: refusals 1 to 4, 7, 8, 10 (for the words) and 11.
pub fn check(
    h: HeldShape,
    sets: &[u64],
    image: &[u8],
    request: Request,
    plan: &[u8],
) -> Result<(), Refusal>
    ensures { result ≡ checked_by (index_held h sets.now) image.now request plan.now }
{
    let chunk = chunk_of(request);
    let g = admit_chunk(h, sets.len(), image, chunk)?;
    let mapped = Image {
        bytes: image,
        shape: g,
    }
    .is_mapped(chunk);
    judge(g, &free_in(sets), mapped, request, plan)
}

// Checks a plan and carries its first `n` steps out on the image; the words are then the next index's: refusals 1 to 4, 7, 8, 10 (for the words) and 11.
pub fn carry(
    h: HeldShape,
    sets: &mut [u64],
    image: &mut [u8],
    request: Request,
    plan: &[u8],
    n: u64,
) -> Result<(), Refusal>
    ensures value { result ≡ carry_answer_by (index_held h sets.old) image.old request plan.now n }
    ensures image_after { image.new ≡ carry_image_by (index_held h sets.old) image.old request plan.now n }
    ensures sets_after { sets.new ≡ next_sets (index_held h sets.old) image.old request plan.now n }
{
    let g = admit_chunk(h, sets.len(), image, chunk_of(request))?;
    carry_on(g, sets, image, request, plan, n)
}

// What a read or a write of a byte range within one chunk reads first: refusals 1 to 3, 7 and 10.
pub fn access(
    h: HeldShape,
    sets: &[u64],
    image: &[u8],
    write: bool,
    offset: u64,
    span: u64,
) -> Result<Access, Refusal>
    ensures { result ≡ access_answer_by (index_held h sets.now) image.now write offset span }
{
    let g = admit(h, sets.len(), image)?;
    access_on(
        &Image {
            bytes: image,
            shape: g,
        },
        write,
        offset,
        span,
    )
}

// Where a chunk's held words stand in the image, or the refusal: 1 to 4, 7 and 10.
pub fn find_held(h: HeldShape, sets: &[u64], image: &[u8], chunk: u64) -> Result<Extent, Refusal>
    ensures value { result ≡ held_of_by (index_held h sets.now) image.now chunk }
    ensures within { IfOk result (λ e. (e.start ≤ e.end) × (e.end ≤ length image.now)) }
{
    let g = admit_chunk(h, sets.len(), image, chunk)?;
    held_on(
        &Image {
            bytes: image,
            shape: g,
        },
        chunk,
    )
}

// A chunk's stored size, 0 for an unmapped chunk: refusals 1 to 4, 7 and 10.
pub fn stored_size(h: HeldShape, sets: &[u64], image: &[u8], chunk: u64) -> Result<u64, Refusal>
    ensures { result ≡ size_answer_by (index_held h sets.now) image.now chunk }
{
    let g = admit_chunk(h, sets.len(), image, chunk)?;
    size_on(
        &Image {
            bytes: image,
            shape: g,
        },
        chunk,
    )
}

// The report by what the sets say: refusals 1 to 3 and 10.
pub fn report(h: HeldShape, sets: &[u64], image: &[u8]) -> Result<Report, Refusal>
    ensures { result ≡ report_answer_by (index_held h sets.now) image.now }
{
    let g = admit(h, sets.len(), image)?;
    Ok(report_on(g, &free_in(sets)))
}

// Whether the alarm sounds at a level by what the sets say: refusals 1 to 3, 10 and 12.
pub fn alarm(h: HeldShape, sets: &[u64], image: &[u8], level: Level) -> Result<Alarm, Refusal>
    ensures { result ≡ alarm_answer_by (index_held h sets.now) image.now level }
{
    let g = admit(h, sets.len(), image)?;
    alarm_on(g, free_in(sets).units, level)
}
