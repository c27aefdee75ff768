// The scan for maps and units claimed twice, which also finds what is free.
ghost use Rattle.std.specs.Prelude.{◌≡◌, Bool, true, ℕ, ◌<◌, length};
ghost use Rattle.image.specs.Verdicts.{good_link};
ghost use Rattle.bitset.specs.Bits.{bit_set};
ghost use Rattle.layout.specs.Layout.{is_unit};
ghost use Rattle.layout.specs.Shaped.{Limits};
ghost use Rattle.image.specs.Loading.{unit_set_words, map_set_words};
ghost use Rattle.image.specs.Claims.{held_in, unheld, unnamed, TakenOut, Claimed, Scanned};

use crate::Image;
use bitset::{contains, fill, fill_between, remove};
use layout::{ABSENT, Shape};

// Takes the units of map k, `count` of them, out of a set: false at the first that is not in it.
fn claim_units(image: &Image, k: usize, count: usize, units: &mut [u64]) -> bool
    requires k_lt_m { (k < image.now.shape.m) × (count ≡ length (held_in image.now.bytes.now k)) }
    ensures { (f : ℕ → Bool) → units.old ≡ bit_set f unit_set_words → TakenOut f (held_in image.now.bytes.now k) result units.new }
{
    for j in 0..count {
        let u = image.unit_word(k, j);
        if !contains(units, u) {
            return false;
        }
        remove(units, u as usize);
    }
    true
}

// Takes chunk j's map and units out of the sets that the chunks below it left: false where one is not in them.
fn claim(image: &Image, j: usize, units: &mut [u64], maps: &mut [u64]) -> bool
    requires j_lt_c { (j < image.now.shape.c) × (good_link image.now.bytes.now j ≡ true) }
    requires units_value { units.old ≡ bit_set (unheld image.now.bytes.now j) unit_set_words }
    requires maps_value { maps.old ≡ bit_set (unnamed image.now.bytes.now j) map_set_words }
    ensures { Claimed image.now.bytes.now j result units.new maps.new }
{
    let w = image.link(j);
    if w == ABSENT {
        return true;
    }
    let k = w as usize;
    if contains(maps, w) {
        remove(maps, k);
        let count = image.held_count(k);
        return claim_units(image, k, count, units);
    }
    false
}

// Makes a set that of the units that a chunk may hold.
fn fill_units(units: &mut [u64], g: Shape)
    requires { Limits g }
    ensures { units.new ≡ bit_set (is_unit g) (length units.old) }
{
    let low = g.r as usize;
    let high = g.n as usize;
    fill_between(units, low, high);
}

// Takes the maps and units of the chunks out of the full sets, chunk after chunk: the lowest chunk that claims what a lower one has claimed, or one unit
// twice; or C, and then the sets hold what is free.
pub(crate) fn first_double_claim(image: &Image, units: &mut [u64], maps: &mut [u64]) -> usize
    requires by_index { (i : ℕ) → i < image.now.shape.c → good_link image.now.bytes.now i ≡ true }
    requires units_len { (length units.old ≡ unit_set_words) × (length maps.old ≡ map_set_words) }
    ensures { Scanned image.now.bytes.now result units.new maps.new }
{
    let c = image.shape.c as usize;
    let m = image.shape.m as usize;
    fill_units(units, image.shape);
    fill(maps, m);
    for j in 0..c {
        if !claim(image, j, units, maps) {
            return j;
        }
    }
    c
}
