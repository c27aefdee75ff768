// A plan is read one step at a time from the lent bytes. What a plan has at a position, and the position past it, are functions of a slice and a number;
// the reader holds the two together. Whoever goes over a plan by its own count asks `step_at`, which reads by a reader at that step.
ghost use Rattle.std.specs.Prelude.{◌≡◌, ◌<◌};
ghost use Rattle.steps.specs.Steps.{whole_steps, decode_at};
ghost use Rattle.steps.specs.Reading.{found_at, next_at, reader_at, advanced};

use crate::decode::decode_at;
use crate::{Advanced, Reader, STEP_BYTES, Step};

// What a plan has at step `at`.
#[tactic(auto, unfolding(crate::specs::Reading::found_at))]
pub(crate) fn found_at(plan: &[u8], at: usize) -> Option<Option<Step>>
    ensures { result ≡ found_at plan.now at }
{
    let whole = plan.len() / STEP_BYTES;
    (at < whole).then(|| decode_at(plan, at))
}

// The position past what a plan has at step `at`.
#[tactic(auto, unfolding(crate::specs::Reading::next_at))]
pub(crate) fn next_at(plan: &[u8], at: usize) -> usize
    ensures { result ≡ next_at plan.now at }
{
    let whole = plan.len() / STEP_BYTES;
    if at < whole { at + 1 } else { at }
}

// A reader of a plan at step `at`.
pub fn start<'a>(plan: &'a [u8], at: usize) -> Reader<'a>
    ensures { result ≡ reader_at plan.entry at }
{
    Reader { plan, at }
}

// What a reader finds, and the reader past it.
pub fn read<'a>(r: Reader<'a>) -> Advanced<'a>
    ensures { result ≡ advanced r.entry }
{
    let at = next_at(r.plan, r.at);
    Advanced {
        found: found_at(r.plan, r.at),
        rest: Reader { at, ..r },
    }
}

// What a reader at step `at` of a plan finds.
pub fn next_of(plan: &[u8], at: usize) -> Option<Option<Step>>
    ensures { result ≡ found_at plan.now at }
{
    read(start(plan, at)).found
}

// What step `at` of a plan says.
#[tactic(auto, unfolding(crate::specs::Reading::found_at))]
pub fn step_at(plan: &[u8], at: usize) -> Option<Step>
    requires { at < whole_steps plan.now }
    ensures { result ≡ decode_at plan.now at }
{
    next_of(plan, at).flatten()
}
