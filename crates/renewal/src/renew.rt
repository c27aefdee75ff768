// The next index: what a chunk held becomes free, and what it holds now does not.
ghost use Rattle.std.specs.Prelude.{◌≡◌, ◌≤◌, length};
ghost use Rattle.std.specs.List.{FoldsTo};
ghost use Rattle.renewal.specs.Renewal.{set_words, held_by, Leaves, renewed_units, renewed_maps, renewed_sets};

use crate::SET_WORDS;
use bitset::{insert, remove};
use image::{Image, UNIT_SET_WORDS};
use layout::geometry::is_unit;

// Leaves a set by each unit of map k, one after the other; where k is no map's number, nothing changes.
fn each_unit<F: Fn(&mut [u64], u64)>(units: &mut [u64], image: &Image, k: u64, change: F)
    requires { F.IsAlwaysCallable change }
    ensures { FoldsTo (Leaves (F.post change)) units.old (held_by image.now.bytes.now k) units.new }
{
    if image.shape.m as u64 <= k {
        return;
    }
    for j in 0..image.shape.p as usize {
        let u = image.unit_word(k as usize, j);
        if !is_unit(image.shape, u) {
            return;
        }
        change(units, u);
    }
}

// The free units once a chunk's entry, which was `old`, is `new`.
fn renew_units(units: &mut [u64], image: &Image, old: u64, new: u64)
    ensures { units.new ≡ renewed_units units.old image.now.bytes.now old new }
{
    each_unit(units, image, old, |set, u| {
        insert(set, u);
    });
    each_unit(units, image, new, |set, u| remove(set, u as usize));
}

// The free maps then.
fn renew_maps(maps: &mut [u64], old: u64, new: u64)
    ensures { maps.new ≡ renewed_maps maps.old old new }
{
    insert(maps, old);
    remove(maps, new as usize);
}

// Both, in the image as it is left.
pub fn renew(sets: &mut [u64], image: &Image, old: u64, new: u64)
    requires set_words_in_bounds { set_words ≤ length sets.old }
    ensures { sets.new ≡ renewed_sets sets.old image.now.bytes.now old new }
{
    renew_units(&mut sets[..UNIT_SET_WORDS], image, old, new);
    renew_maps(&mut sets[UNIT_SET_WORDS..SET_WORDS], old, new);
}
