// One pass over the chunks of an image: whether they are sound, and then what is free. Where it says no, the scans look again for the refusal.
ghost use Rattle.std.specs.Prelude.{◌≡◌, Bool, true, cond, ℕ, ◌+◌, ◌<◌, ◌≤◌, length, replicate, take, drop, eqb};
ghost use Rattle.search.specs.Search.{all};
ghost use Rattle.search.specs.Sets.{with_all};
ghost use Rattle.bitset.specs.Bits.{bit_set, words_for};
ghost use Rattle.layout.specs.Layout.{X};
ghost use Rattle.layout.specs.Shaped.{unit_words_of};
ghost use Rattle.image.specs.Verdicts.{chunk_verdict};
ghost use Rattle.image.specs.Loading.{unit_set_words, map_set_words};
ghost use Rattle.image.specs.Survey.{claimed_in, claimed_by, passable, units_taken, maps_taken, passed, Surveyed};

use bitset::{count, fill_outside, insert, invert, place, words_for};
use image::{Image, MAP_SET_WORDS, UNIT_SET_WORDS};
use layout::ABSENT;

// So many words of a map are looked at together.
const RUN: usize = 4;

const TWO_RUNS: usize = 2 * RUN;

// Puts the words of map k that stand before the first without a bit into the units' set, and answers how many. Two words a turn, which is quicker than one.
fn put_units(image: &Image, k: usize, units: &mut [u64]) -> usize
    requires k_lt_m { (k < image.now.shape.m) × (length units.old ≡ words_for image.now.shape.n) }
    ensures value { result ≡ length (claimed_in image.now.bytes.now k) }
    ensures by_index { (f : ℕ → Bool) → units.old ≡ bit_set f (words_for image.now.shape.n)
        → units.new ≡ bit_set (with_all f (claimed_in image.now.bytes.now k)) (words_for image.now.shape.n) }
{
    let p = image.shape.p as usize;
    for i in 0..p / 2 {
        let j = 2 * i;
        if !insert(units, image.unit_word(k, j)) {
            return j;
        }
        if !insert(units, image.unit_word(k, j + 1)) {
            return j + 1;
        }
    }
    // An odd P leaves one.
    if p % 2 == 1 && !insert(units, image.unit_word(k, p - 1)) {
        return p - 1;
    }
    p
}

// X exactly where four words of map k, of those that name units, are X, from word j on.
fn common_bits(image: &Image, k: usize, j: usize) -> u64
    requires k_lt_m { (k < image.now.shape.m) × (j + 4 ≤ image.now.shape.p) }
    ensures { eqb result X ≡ all (eqb X) (take 4 (drop j (unit_words_of image.now.bytes.now k))) }
{
    let low = image.unit_word(k, j) & image.unit_word(k, j + 1);
    let high = image.unit_word(k, j + 2) & image.unit_word(k, j + 3);
    low & high
}

// Whether map k holds only X from its word `start` on, as `absent_from` says, for the pass alone. A loop over the rest would end where a processor cannot
// foresee it, once a chunk; so the first words of the rest and the last ones are looked at, which may overlap. P is at most 16: of a rest of eight or more
// the first eight and the last eight leave none out, and of a rest of four or more the first four and the last four.
fn rest_absent(image: &Image, k: usize, start: usize) -> bool
    requires k_lt_m { (k < image.now.shape.m) × (start ≤ image.now.shape.p) }
    ensures { result ≡ all (eqb X) (drop start (unit_words_of image.now.bytes.now k)) }
{
    let p = image.shape.p as usize;
    let rest = p - start;
    if rest >= TWO_RUNS {
        let first = common_bits(image, k, start) & common_bits(image, k, start + RUN);
        let last = common_bits(image, k, p - TWO_RUNS) & common_bits(image, k, p - RUN);
        return (first & last) == ABSENT;
    }
    if rest >= RUN {
        return (common_bits(image, k, start) & common_bits(image, k, p - RUN)) == ABSENT;
    }
    image.absent_from(k, start)
}

// Puts the map that chunk i names and the words that it claims as units into the sets, and answers how many words. None for a chunk with a bad entry, or
// whose map has the wrong form as far as the pass looks.
fn put_claims(image: &Image, i: usize, units: &mut [u64], maps: &mut [u64]) -> Option<usize>
    requires i_lt_c { i < image.now.shape.c }
    requires units_value { units.old ≡ bit_set (units_taken image.now.bytes.now i) (words_for image.now.shape.n) }
    requires maps_value { maps.old ≡ bit_set (maps_taken image.now.bytes.now i) (words_for image.now.shape.m) }
    ensures value { result ≡ cond (passable image.now.bytes.now i) (Some (length (claimed_by image.now.bytes.now i))) None }
    ensures units_after { passable image.now.bytes.now i ≡ true
        → units.new ≡ bit_set (units_taken image.now.bytes.now (i + 1)) (words_for image.now.shape.n) }
    ensures maps_after { passable image.now.bytes.now i ≡ true
        → maps.new ≡ bit_set (maps_taken image.now.bytes.now (i + 1)) (words_for image.now.shape.m) }
{
    let w = image.link(i);
    if w == ABSENT {
        return Some(0);
    }
    if w >= image.shape.m as u64 {
        return None;
    }
    let k = w as usize;
    place(maps, k / 64, k);
    let h = put_units(image, k, units);
    if h == 0 || !rest_absent(image, k, h) || !image.size_fits(k, h) {
        return None;
    }
    Some(h)
}

// Whether the chunks are sound: then the sets, which begin empty and have just the words that N and M need, are left with what is free. What no chunk may
// hold is put in first, and no claim is looked up before it is put in. At the end claimed and free units are N-R in all, and more where a unit was claimed
// twice or may not be held. A map that is named twice shows in its units, of which it has one at least.
fn survey_words(image: &Image, units: &mut [u64], maps: &mut [u64]) -> bool
    requires units_value { (units.old ≡ replicate (words_for image.now.shape.n) 0) × (maps.old ≡ replicate (words_for image.now.shape.m) 0) }
    ensures { Surveyed image.now.bytes.now result (words_for image.now.shape.n) (words_for image.now.shape.m) units.new maps.new }
{
    let c = image.shape.c as usize;
    let m = image.shape.m as usize;
    let n = image.shape.n as usize;
    let low = image.shape.r as usize;
    fill_outside(units, low, n);
    fill_outside(maps, 0, m);
    let mut claimed: usize = 0;
    for i in 0..c {
        let Some(words) = put_claims(image, i, units, maps) else {
            return false;
        };
        claimed += words;
    }
    invert(units);
    invert(maps);
    claimed + count(units) == n - low
}

// The same with sets for the largest volume, of which the other words stay empty.
pub(crate) fn survey(image: &Image, units: &mut [u64], maps: &mut [u64]) -> bool
    requires units_value { (units.old ≡ replicate unit_set_words 0) × (maps.old ≡ replicate map_set_words 0) }
    ensures { Surveyed image.now.bytes.now result unit_set_words map_set_words units.new maps.new }
{
    // A copy, which no store into the sets can change: through the reference the shape is read anew for each word, and a load takes 1.4 times as long.
    let image = *image;
    let unit_words = words_for(image.shape.n as usize);
    let map_words = words_for(image.shape.m as usize);
    survey_words(&image, &mut units[..unit_words], &mut maps[..map_words])
}

// Whether the chunks are sound, where nobody asks what is free.
pub fn passes(image: &Image) -> bool
    ensures { result ≡ passed (chunk_verdict image.now.bytes.now) }
{
    let mut units = [0u64; UNIT_SET_WORDS];
    let mut maps = [0u64; MAP_SET_WORDS];
    survey(image, &mut units, &mut maps)
}
