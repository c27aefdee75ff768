// What a shape says: the words of a map and where they stand, which numbers are units, and what a compressed size takes.
ghost use Rattle.std.specs.Prelude.{◌≡◌, ◌-◌, ◌<◌, ◌≤◌};
ghost use Rattle.layout.specs.Layout.{is_unit, units_for, is_size, head, map_words, map_word_place};
ghost use Rattle.layout.specs.Layout.{max_chunk_units, max_chunk_bytes, max_head, max_map_words, max_words};
ghost use Rattle.layout.specs.Shaped.{Limits, word_count};

use crate::{FIRST_EDITION, Shape, UNIT_BYTES};

// How many words of a map stand before its units.
pub fn head(g: Shape) -> u32
    requires { Limits g }
    ensures { (result ≡ head g) × (result ≤ max_head) }
{
    g.edition - FIRST_EDITION
}

// How many words a map has.
pub fn map_words(g: Shape) -> u32
    requires { Limits g }
    ensures { (result ≡ map_words g) × (result ≤ max_map_words) }
{
    head(g) + g.p
}

// Which word of the image is word j of map k.
pub fn map_word_place(g: Shape, k: usize, j: usize) -> usize
    requires limits { Limits g }
    requires k_lt_m { (k < g.m) × (j < map_words g) }
    ensures { (result ≡ map_word_place g k j) × (result < word_count g) × (word_count g ≤ max_words) }
{
    let c = g.c as usize;
    let w = map_words(g) as usize;
    c + k * w + j
}

// How many units there are that a chunk may hold: all but the reserved ones.
fn unit_count(g: Shape) -> u32
    ensures { result ≡ g.n - g.r }
{
    g.n.saturating_sub(g.r)
}

// Whether a number is a unit that a chunk may hold: below N, and not reserved. This is asked of every word that may name a unit, so it is one comparison:
// less R, a reserved number wraps to one that is past them all.
pub fn is_unit(g: Shape, u: u64) -> bool
    ensures { result ≡ is_unit g u }
{
    u.wrapping_sub(g.r as u64) < unit_count(g) as u64
}

// How many units a compressed size takes.
pub fn units_for(size: u64) -> u64
    requires { size ≤ max_chunk_bytes }
    ensures { (result ≡ units_for size) × (result ≤ max_chunk_units) }
{
    (size + (UNIT_BYTES - 1)) / UNIT_BYTES
}

// Whether a chunk may have a compressed size.
pub fn is_size(g: Shape, size: u64) -> bool
    ensures { result ≡ is_size g size }
{
    1 <= size && size <= g.p as u64 * UNIT_BYTES
}
