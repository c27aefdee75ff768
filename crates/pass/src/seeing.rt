// What rules 2 to 5 keep of each kind of step, and the pass over a whole plan.
ghost use Rattle.std.specs.Prelude.{◌≡◌};
ghost use Rattle.layout.specs.Layout.{after_head};
ghost use Rattle.layout.specs.Shaped.{Limits};
ghost use Rattle.pass.specs.Passes.{unit_at, on_map, first_map, order_after, see as see_of, Passes};

use crate::ranges::in_range;
use crate::{Due, Order, Seen};
use layout::{ABSENT, Shape};
use rules::MAX_STEPS;
use steps::reading::step_at;
use steps::values::word_of;
use steps::{STEP_BYTES, Step};
use tally::tick_off;

// The order after a DATA or a MAP step.
fn order_store(o: Order) -> Order
    ensures { result ≡ order_after o (Step.Data 0 0 0) }
{
    Order {
        good: o.good && !o.linked,
        fenced: false,
        any: true,
        ..o
    }
}

fn order_link(o: Order) -> Order
    ensures { result ≡ order_after o (Step.Link 0 None) }
{
    Order {
        good: o.good && (o.linked || o.fenced),
        linked: true,
        fenced: false,
        any: true,
    }
}

impl Due<'_> {
    // The unit at place j of those dealt to the pieces: X past the last.
    fn unit_at(&self, j: u32) -> u64
        ensures { result ≡ unit_at self.now.dealt.now j }
    {
        self.dealt.get(j as usize).map_or(ABSENT, |u| u64::from(*u))
    }

    // What a word of the new map must hold: the size in the first `heads` words, then the units dealt.
    #[tactic(auto, unfolding(layout::specs::Layout::after_head))]
    fn word_at(&self, word: u32) -> u64
        ensures { result ≡ after_head self.now.heads self.now.size (unit_at self.now.dealt.now) word }
    {
        if word < self.heads {
            self.size
        } else {
            self.unit_at(word - self.heads)
        }
    }
}

// A DATA step: its piece must still be expected, and its unit be the one dealt to it.
fn see_data(st: Seen, due: &Due, unit: u32, piece: u32) -> Seen
    ensures { result ≡ see_of 0 (unit_at due.now.dealt.now) (λ j. 0) st (Step.Data unit piece 0) }
{
    Seen {
        pieces: tick_off(st.pieces, piece, due.unit_at(piece) == u64::from(unit)),
        order: order_store(st.order),
        ..st
    }
}

// Whether a MAP step is on the map of the first one.
fn on_map(first: u64, map: u64) -> bool
    ensures { result ≡ on_map first map }
{
    first == ABSENT || first == map
}

fn first_map(first: u64, map: u64) -> u64
    ensures { result ≡ first_map first map }
{
    if first == ABSENT { map } else { first }
}

// A MAP step: its word must still be expected, be on the map of the first MAP step, and store what is due there.
fn see_map(st: Seen, due: &Due, map: u32, word: u32, value: Option<u32>) -> Seen
    ensures { result
        ≡ see_of 0 (λ j. 0) (after_head due.now.heads due.now.size (unit_at due.now.dealt.now)) st (Step.Map map word value) }
{
    let right = on_map(st.map, u64::from(map)) && word_of(value) == due.word_at(word);
    Seen {
        words: tick_off(st.words, word, right),
        map: first_map(st.map, u64::from(map)),
        order: order_store(st.order),
        ..st
    }
}

// A LINK step: it must be of the request's chunk. Which map it stores is compared at the end, since MAP steps may follow in a bad plan.
fn see_link(st: Seen, due: &Due, chunk: u32, value: Option<u32>) -> Seen
    ensures { result ≡ see_of due.now.chunk (λ j. 0) (λ j. 0) st (Step.Link chunk value) }
{
    Seen {
        links: tick_off(st.links, 0, due.chunk == u64::from(chunk)),
        linked: word_of(value),
        order: order_link(st.order),
        ..st
    }
}

fn see_fence(st: Seen) -> Seen
    ensures { result ≡ see_of 0 (λ j. 0) (λ j. 0) st Step.Fence }
{
    Seen {
        order: Order {
            fenced: true,
            any: true,
            ..st.order
        },
        ..st
    }
}

// A step, for what is due.
fn see(st: Seen, due: &Due, s: Step) -> Seen
    ensures { result ≡ see_of due.now.chunk (unit_at due.now.dealt.now)
        (after_head due.now.heads due.now.size (unit_at due.now.dealt.now)) st s }
{
    match s {
        Step::Data { unit, piece, .. } => see_data(st, due, unit, piece),
        Step::Map { map, word, value } => see_map(st, due, map, word, value),
        Step::Link { chunk, value } => see_link(st, due, chunk, value),
        Step::Fence => see_fence(st),
    }
}

// The pass over a whole plan. The first step that breaks rule 1 ends it: no lower rule is left to break.
pub fn see_all(plan: &[u8], g: Shape, due: &Due, start: Seen) -> Option<Seen>
    requires { Limits g }
    ensures { Passes g due.now.chunk (unit_at due.now.dealt.now)
        (after_head due.now.heads due.now.size (unit_at due.now.dealt.now)) start plan.now result }
{
    if plan.len() % STEP_BYTES != 0 {
        return None;
    }
    let n = plan.len() / STEP_BYTES;
    if n > MAX_STEPS {
        return None;
    }
    let mut seen = start;
    for at in 0..n {
        let step = step_at(plan, at)?;
        if !in_range(g, step) {
            return None;
        }
        seen = see(seen, due, step);
    }
    Some(seen)
}
