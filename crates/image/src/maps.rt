// The words of the logical map and of the chunk maps, of an image whose shape is known.
ghost use Rattle.std.specs.Prelude.{◌≡◌, ◌<◌, ◌≤◌, length, get_or, drop, eqb, ltb, ◌&&◌};
ghost use Rattle.search.specs.Search.{all};
ghost use Rattle.layout.specs.Layout.{X, map_words, shape_of, link_of};
ghost use Rattle.layout.specs.Shaped.{map_of, unit_words_of};
ghost use Rattle.image.specs.Soundness.{mapped};
ghost use Rattle.image.specs.Verdicts.{size_fits};
ghost use Rattle.image.specs.Claims.{held_in};

use crate::Image;
use layout::geometry::{head, is_unit, map_word_place};
use layout::{ABSENT, UNIT_BYTES};

impl Image<'_> {
    // Chunk i's entry in the logical map.
    pub fn link(&self, i: usize) -> u64
        requires i_lt_c { i < self.now.shape.c }
        ensures { result ≡ link_of self.now.bytes.now i }
    {
        words::get_u64(self.bytes, 8 * i)
    }

    // Whether chunk i is below C and mapped.
    pub fn is_mapped(&self, i: u64) -> bool
        ensures { result ≡ (ltb i self.now.shape.c && mapped self.now.bytes.now i) }
    {
        i < self.shape.c as u64 && self.link(i as usize) != ABSENT
    }

    // Word j of map k.
    pub fn map_word(&self, k: usize, j: usize) -> u64
        requires k_lt_m { (k < self.now.shape.m) × (j < map_words self.now.shape) }
        ensures { result ≡ get_or (map_of self.now.bytes.now k) j 0 }
    {
        words::get_u64(self.bytes, 8 * map_word_place(self.shape, k, j))
    }

    // Word j of those of map k that name units.
    pub fn unit_word(&self, k: usize, j: usize) -> u64
        requires k_lt_m { (k < self.now.shape.m) × (j < self.now.shape.p) }
        ensures { result ≡ get_or (unit_words_of self.now.bytes.now k) j 0 }
    {
        self.map_word(k, head(self.shape) as usize + j)
    }

    // How many units map k holds: its words before the first that is no unit.
    pub fn held_count(&self, k: usize) -> usize
        requires k_lt_m { k < self.now.shape.m }
        ensures { result ≡ length (held_in self.now.bytes.now k) }
    {
        let p = self.shape.p as usize;
        for j in 0..p {
            if !is_unit(self.shape, self.unit_word(k, j)) {
                return j;
            }
        }
        p
    }

    // Whether map k holds only X from its word `start` on, of those that name units.
    pub fn absent_from(&self, k: usize, start: usize) -> bool
        requires k_lt_m { (k < self.now.shape.m) × (start ≤ self.now.shape.p) }
        ensures { result ≡ all (eqb X) (drop start (unit_words_of self.now.bytes.now k)) }
    {
        let p = self.shape.p as usize;
        for j in start..p {
            if self.unit_word(k, j) != ABSENT {
                return false;
            }
        }
        true
    }

    // Whether map k, which holds `count` units, has a size of just so many, or none.
    pub fn size_fits(&self, k: usize, count: usize) -> bool
        requires k_lt_m { (k < self.now.shape.m) × (1 ≤ count) × (count ≤ self.now.shape.p) }
        ensures { result ≡ size_fits (shape_of self.now.bytes.now) count (map_of self.now.bytes.now k) }
    {
        if head(self.shape) == 0 {
            return true;
        }
        let size = self.map_word(k, 0);
        let most = count as u64 * UNIT_BYTES;
        size <= most && most - UNIT_BYTES < size
    }
}
