// The loader's scans over the chunks of an image whose shape is known.
ghost use Rattle.std.specs.Prelude.{◌≡◌, true, ℕ, ◌<◌};
ghost use Rattle.image.specs.Verdicts.{good_link, good_map, bad_link, bad_map};

use crate::Image;
use layout::ABSENT;

impl Image<'_> {
    // Whether chunk i's entry is X or below M.
    pub fn good_link(&self, i: usize) -> bool
        requires i_lt_c { i < self.now.shape.c }
        ensures { result ≡ good_link self.now.bytes.now i }
    {
        let w = self.link(i);
        w == ABSENT || w < self.shape.m as u64
    }

    // Whether chunk i names no map, or one of the right form.
    pub fn good_map(&self, i: usize) -> bool
        requires i_lt_c { (i < self.now.shape.c) × (good_link self.now.bytes.now i ≡ true) }
        ensures { result ≡ good_map self.now.bytes.now i }
    {
        let w = self.link(i);
        if w == ABSENT {
            return true;
        }
        let k = w as usize;
        let h = self.held_count(k);
        h > 0 && self.absent_from(k, h) && self.size_fits(k, h)
    }
}

// The lowest chunk whose entry is neither X nor below M, or C.
pub(crate) fn first_bad_link(image: &Image) -> usize
    ensures { result ≡ bad_link image.now.bytes.now }
{
    let c = image.shape.c as usize;
    for i in 0..c {
        if !image.good_link(i) {
            return i;
        }
    }
    c
}

// The lowest chunk whose named map has the wrong form, or C.
pub(crate) fn first_bad_map(image: &Image) -> usize
    requires by_index { (i : ℕ) → i < image.now.shape.c → good_link image.now.bytes.now i ≡ true }
    ensures { result ≡ bad_map image.now.bytes.now }
{
    let c = image.shape.c as usize;
    for i in 0..c {
        if !image.good_map(i) {
            return i;
        }
    }
    c
}
