// What the chunks with good links and maps claim: which maps and units, and which of them more than once.
ghost use Rattle.std.specs.Prelude.{◌≡◌, true, List, [], ◌∷◌, ◌++◌, ℕ, ◌<◌, length};
ghost use Rattle.search.specs.Search.{any};
ghost use Rattle.bitset.specs.Bits.{in_set};
ghost use Rattle.image.specs.Claims.{held_in};
ghost use Rattle.image.specs.Verdicts.{good_link};
ghost use Rattle.repair.specs.Claims.{claims_of, Counted};

use crate::FIRST_MAP_CLAIM;
use bitset::{contains, insert};
use image::Image;
use layout::{ABSENT, Shape};

// Counts one claim.
fn claim(once: &mut [u64], again: &mut [u64], x: u64)
    ensures { (xs : List ℕ) → Counted xs once.old again.old → Counted (xs ++ x ∷ []) once.new again.new }
{
    if contains(once, x) {
        insert(again, x);
    } else {
        insert(once, x);
    }
}

// Counts the units of map k, `count` of them.
fn claim_units(image: &Image, k: usize, count: usize, once: &mut [u64], again: &mut [u64])
    requires k_lt_m { (k < image.now.shape.m) × (count ≡ length (held_in image.now.bytes.now k)) }
    ensures { (xs : List ℕ) → Counted xs once.old again.old
        → Counted (xs ++ held_in image.now.bytes.now k) once.new again.new }
{
    for j in 0..count {
        claim(once, again, image.unit_word(k, j));
    }
}

// Counts what chunk i claims.
pub(crate) fn claim_chunk(image: &Image, i: usize, once: &mut [u64], again: &mut [u64])
    requires i_lt_c { (i < image.now.shape.c) × (good_link image.now.bytes.now i ≡ true) }
    ensures { (xs : List ℕ) → Counted xs once.old again.old
        → Counted (xs ++ claims_of image.now.bytes.now i) once.new again.new }
{
    let w = image.link(i);
    if w == ABSENT {
        return;
    }
    let k = w as usize;
    claim(once, again, (FIRST_MAP_CLAIM + k) as u64);
    let count = image.held_count(k);
    claim_units(image, k, count, once, again);
}

// Whether a unit of map k, which holds `count` units, is in a set.
fn has_unit_in(image: &Image, k: usize, count: usize, set: &[u64]) -> bool
    requires k_lt_m { (k < image.now.shape.m) × (count ≡ length (held_in image.now.bytes.now k)) }
    ensures { result ≡ any (in_set set.now) (held_in image.now.bytes.now k) }
{
    for j in 0..count {
        if contains(set, image.unit_word(k, j)) {
            return true;
        }
    }
    false
}

// Whether a claim of chunk i is in a set.
pub(crate) fn has_claim_in(image: &Image, i: usize, set: &[u64]) -> bool
    requires i_lt_c { (i < image.now.shape.c) × (good_link image.now.bytes.now i ≡ true) }
    ensures { result ≡ any (in_set set.now) (claims_of image.now.bytes.now i) }
{
    let w = image.link(i);
    if w == ABSENT {
        return false;
    }
    let k = w as usize;
    if contains(set, (FIRST_MAP_CLAIM + k) as u64) {
        return true;
    }
    let count = image.held_count(k);
    has_unit_in(image, k, count, set)
}
