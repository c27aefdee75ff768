// Plans carried out on an image file.
ghost use Rattle.std.specs.Prelude.{◌≡◌};
ghost use Rattle.plans.specs.LongPlans.{asked_of};

use crate::{PLAN_ROOM, READ_STEPS};
use carry::carry;
use host::arguments::file_name;
use host::making::rewrite;
use host::opening::open_update;
use host::reading::{file_length, read_file, read_open};
use host::{Failure, NAME_ROOM, ReadError, Word};
use layout::MAX_IMAGE_BYTES;
use steps::reading::next_of;
use steps::{Request, STEP_BYTES, Step};

// How many steps to ask of the first 65 of a longer plan, where n are asked of the plan: what is
// past all of its steps stays so.
#[tactic(auto, unfolding(crate::specs::LongPlans::asked_of))]
fn asked_of(n: u64, whole: u64) -> u64
    ensures { result ≡ asked_of n whole }
{
    if whole < n {
        n
    } else {
        n.min(READ_STEPS as u64)
    }
}

// How many of a plan's first n steps stand before its LINK.
fn before_link(plan: &[u8], n: u64) -> u64 {
    (0..n)
        .find(|&i| matches!(next_of(plan, i as usize), Some(Some(Step::Link { .. }))))
        .unwrap_or(n)
}

// Carries out the first n steps of a plan on the image that argument 1 names; a refused image is not
// written. The FENCE before LINK is kept on the file too: what stands before LINK is synced before
// LINK is written, so that a power failure never leaves a link to a map that is not there. Each of
// the two is made from the image as it was found: once LINK has landed, the plan is no plan for the
// image any more. In a frame of its own: within main its images would stand below the rooms in which
// the arguments were read, and the program would take 220 KiB of stack in place of about 140.
#[inline(never)]
fn carry_plan(
    rt: HostRuntime,
    request: Request,
    plan: &[u8],
    n: u64,
) -> Result<Option<Word>, Failure> {
    let mut name = [0u8; NAME_ROOM];
    let name_length = file_name(rt, 1, &mut name)?;
    let name = &name[..name_length];
    let mut file = open_update(rt, name)?;
    let mut early = [0u8; MAX_IMAGE_BYTES];
    let length = read_open(rt, &mut file, name, &mut early)?;
    let mut late = early;
    carry(&mut late[..length], request, plan, n)?;
    let early_n = before_link(plan, n);
    // The plan is accepted, so that fewer of its steps are carried out too.
    let _ = carry(&mut early[..length], request, plan, early_n);
    rewrite(rt, &mut file, name, &early[..length])?;
    if early_n < n {
        rewrite(rt, &mut file, name, &late[..length])?;
    }
    Ok(Some(Word::Carried))
}

// Carries out the first n steps of the plan that argument 2 names. Of one that is longer than the
// room for it the first 65 steps were read.
pub(crate) fn carry_file(
    rt: HostRuntime,
    request: Request,
    n: u64,
) -> Result<Option<Word>, Failure> {
    let mut plan = [0u8; PLAN_ROOM];
    let (length, n) = match read_file(rt, 2, &mut plan) {
        Err(ReadError::Long) => (
            PLAN_ROOM,
            asked_of(n, file_length(rt, 2)? / STEP_BYTES as u64),
        ),
        read => (read?, n),
    };
    carry_plan(rt, request, &plan[..length], n)
}
