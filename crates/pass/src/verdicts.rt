// What a request's plan must have, and the verdict of rules 2 to 5 on what was seen.
ghost use Rattle.std.specs.Prelude.{◌≡◌, ◌≤◌};
ghost use Rattle.bitset.specs.Bits.{in_set};
ghost use Rattle.layout.specs.Layout.{max_chunk_units, max_map_words};
ghost use Rattle.rules.specs.Rules.{stored_words, broken};
ghost use Rattle.pass.specs.Passes.{links_for, unseen as unseen_of, target as target_of, keeps3, keeps4, keeps5, broken_by};

use crate::{Order, Seen};
use bitset::contains;
use layout::{ABSENT, Refusal};
use steps::Request;
use tally::expect;

// How many words of a map a request's plan stores.
fn stored_words(words: u32, request: Request) -> u32
    ensures { (result ≡ stored_words words request) × (result ≤ words) }
{
    match request {
        Request::Write { .. } => words,
        Request::Discard { .. } => 0,
    }
}

// How many LINK steps it has.
fn links_for(mapped: bool, request: Request) -> u32
    ensures { (result ≡ links_for mapped request) × (result ≤ 1) }
{
    match request {
        Request::Write { .. } => 1,
        Request::Discard { .. } => u32::from(mapped),
    }
}

// Before the first step: k pieces are expected, and the words of a map of `words` words.
#[tactic(auto, unfolding(crate::specs::Passes::unseen))]
pub fn unseen(k: u32, words: u32, mapped: bool, request: Request) -> Seen
    requires { (k ≤ max_chunk_units) × (words ≤ max_map_words) }
    ensures { result ≡ unseen_of k (stored_words words request) (links_for mapped request) }
{
    Seen {
        pieces: expect(k),
        words: expect(stored_words(words, request)),
        links: expect(links_for(mapped, request)),
        map: ABSENT,
        linked: ABSENT,
        order: Order {
            good: true,
            linked: false,
            fenced: false,
            any: false,
        },
    }
}

#[tactic(auto, unfolding(crate::specs::Passes::keeps3))]
fn keeps_rule3(maps: &[u64], st: Seen) -> bool
    ensures { result ≡ keeps3 (in_set maps.now) st }
{
    // The map of the MAP steps must be free, where there are any.
    st.words == 0 && (st.map == ABSENT || contains(maps, st.map))
}

// The word that LINK must store.
fn target(request: Request, map: u64) -> u64
    ensures { result ≡ target_of request map }
{
    match request {
        Request::Write { .. } => map,
        Request::Discard { .. } => ABSENT,
    }
}

#[tactic(auto, unfolding(crate::specs::Passes::keeps4))]
fn keeps_rule4(request: Request, st: Seen) -> bool
    ensures { result ≡ keeps4 request st }
{
    st.links == 0 && target(request, st.map) == st.linked
}

#[tactic(auto, unfolding(crate::specs::Passes::keeps5))]
fn keeps_rule5(mapped: bool, request: Request, o: Order) -> bool
    ensures { result ≡ keeps5 mapped request o }
{
    match request {
        Request::Write { .. } => o.good && o.linked && o.fenced,
        Request::Discard { .. } => { if mapped { o.fenced } else { !o.any } }
    }
}

// The lowest of rules 2 to 5 that is broken, as the refusal.
#[tactic(auto, unfolding(crate::specs::Passes::broken_by))]
pub fn lowest_broken(maps: &[u64], mapped: bool, request: Request, st: Seen) -> Result<(), Refusal>
    ensures { result ≡ broken (broken_by (in_set maps.now) mapped request st) }
{
    if st.pieces != 0 {
        return Err(Refusal::BadPlan(2));
    }
    if !keeps_rule3(maps, st) {
        return Err(Refusal::BadPlan(3));
    }
    if !keeps_rule4(request, st) {
        return Err(Refusal::BadPlan(4));
    }
    if !keeps_rule5(mapped, request, st.order) {
        return Err(Refusal::BadPlan(5));
    }
    Ok(())
}
