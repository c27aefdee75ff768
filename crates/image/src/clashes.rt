// Which lower chunk a chunk that claims something twice clashes with. Only a refusal comes here.
ghost use Rattle.std.specs.Prelude.{◌≡◌, true, not, ℕ, ◌<◌, length};
ghost use Rattle.search.specs.Search.{member, disjoint};
ghost use Rattle.image.specs.Verdicts.{good_link, clash, first_claim};
ghost use Rattle.image.specs.Claims.{held_in};

use crate::Image;
use layout::ABSENT;

// Whether map k, which holds `count` units, holds unit u.
fn holds(image: &Image, k: usize, count: usize, u: u64) -> bool
    requires k_lt_m { (k < image.now.shape.m) × (count ≡ length (held_in image.now.bytes.now k)) }
    ensures { result ≡ member u (held_in image.now.bytes.now k) }
{
    for i in 0..count {
        if u == image.unit_word(k, i) {
            return true;
        }
    }
    false
}

// Whether maps k and h hold a unit in common.
fn share_unit(image: &Image, k: usize, h: usize) -> bool
    requires k_lt_m { (k < image.now.shape.m) × (h < image.now.shape.m) }
    ensures { result ≡ not (disjoint (held_in image.now.bytes.now k) (held_in image.now.bytes.now h)) }
{
    let count = image.held_count(k);
    let end = image.held_count(h);
    for i in 0..end {
        if holds(image, k, count, image.unit_word(h, i)) {
            return true;
        }
    }
    false
}

// Whether chunks i and j name the same map or a common unit.
fn clashes(image: &Image, i: usize, j: usize) -> bool
    requires i_lt_c { (i < image.now.shape.c) × (good_link image.now.bytes.now i ≡ true) }
    requires j_lt_c { (j < image.now.shape.c) × (good_link image.now.bytes.now j ≡ true) }
    ensures { result ≡ clash image.now.bytes.now i j }
{
    let v = image.link(i);
    let w = image.link(j);
    if v == ABSENT || w == ABSENT {
        return false;
    }
    v == w || share_unit(image, v as usize, w as usize)
}

// The lowest chunk that chunk j clashes with, or j itself.
pub(crate) fn first_claim(image: &Image, j: usize) -> usize
    requires by_index { (i : ℕ) → i < image.now.shape.c → good_link image.now.bytes.now i ≡ true }
    requires j_lt_c { j < image.now.shape.c }
    ensures { result ≡ first_claim image.now.bytes.now j }
{
    for i in 0..j {
        if clashes(image, i, j) {
            return i;
        }
    }
    j
}
