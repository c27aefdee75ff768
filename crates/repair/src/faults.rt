// Which chunks have a fault.
ghost use Rattle.std.specs.Prelude.{◌≡◌, false, [], ◌+◌, ◌<◌};
ghost use Rattle.search.specs.Search.{repeated};
ghost use Rattle.bitset.specs.Bits.{bit_set};
ghost use Rattle.repair.specs.Repair.{bad};
ghost use Rattle.repair.specs.Claims.{claim_words, chunk_set_words, claims_below, Counted, bad_below, unlinks_below};

use crate::CLAIM_WORDS;
use crate::claims::{claim_chunk, has_claim_in};
use bitset::{contains, insert};
use image::Image;
use layout::Shape;

// Whether chunk i has a bad link or a bad map.
fn is_bad(image: &Image, i: usize) -> bool
    requires i_lt_c { i < image.now.shape.c }
    ensures { result ≡ bad image.now.bytes.now i }
{
    if image.good_link(i) {
        return !image.good_map(i);
    }
    true
}

// Puts chunk i into the faulty ones if it is bad, and counts what it claims if it is not.
fn classify_chunk(image: &Image, i: usize, faulty: &mut [u64], once: &mut [u64], again: &mut [u64])
    requires i_lt_c { i < image.now.shape.c }
    requires faulty_value { faulty.old ≡ bit_set (bad_below image.now.bytes.now i) chunk_set_words }
    requires counted { Counted (claims_below image.now.bytes.now i) once.old again.old }
    ensures faulty_after { faulty.new ≡ bit_set (bad_below image.now.bytes.now (i + 1)) chunk_set_words }
    ensures counted_2 { Counted (claims_below image.now.bytes.now (i + 1)) once.new again.new }
{
    if is_bad(image, i) {
        insert(faulty, i as u64);
    } else {
        claim_chunk(image, i, once, again);
    }
}

// Puts the bad chunks into the faulty ones, and counts what all others claim.
fn classify_chunks(image: &Image, faulty: &mut [u64], once: &mut [u64], again: &mut [u64])
    requires faulty_value { faulty.old ≡ bit_set (λ u. false) chunk_set_words }
    requires counted { Counted [] once.old again.old }
    ensures faulty_after { faulty.new ≡ bit_set (bad_below image.now.bytes.now image.now.shape.c) chunk_set_words }
    ensures counted_2 { Counted (claims_below image.now.bytes.now image.now.shape.c) once.new again.new }
{
    for i in 0..image.shape.c as usize {
        classify_chunk(image, i, faulty, once, again);
    }
}

// Puts chunk i into the faulty ones, which have the bad ones already, if something that it claims is claimed again.
fn add_sharing(image: &Image, i: usize, again: &[u64], faulty: &mut [u64])
    requires i_lt_c { i < image.now.shape.c }
    requires again_value { again.now ≡ bit_set (λ x. repeated x (claims_below image.now.bytes.now image.now.shape.c)) claim_words }
    requires faulty_value { faulty.old ≡ bit_set (unlinks_below image.now.bytes.now i) chunk_set_words }
    ensures { faulty.new ≡ bit_set (unlinks_below image.now.bytes.now (i + 1)) chunk_set_words }
{
    if contains(faulty, i as u64) {
        return;
    }
    if has_claim_in(image, i, again) {
        insert(faulty, i as u64);
    }
}

// Adds every chunk that claims what is claimed again.
fn add_all_sharing(image: &Image, again: &[u64], faulty: &mut [u64])
    requires again_value { again.now ≡ bit_set (λ x. repeated x (claims_below image.now.bytes.now image.now.shape.c)) claim_words }
    requires faulty_value { faulty.old ≡ bit_set (bad_below image.now.bytes.now image.now.shape.c) chunk_set_words }
    ensures { faulty.new ≡ bit_set (unlinks_below image.now.bytes.now image.now.shape.c) chunk_set_words }
{
    for j in 0..image.shape.c as usize {
        add_sharing(image, j, again, faulty);
    }
}

// Finds the chunks to unlink: first the bad ones, then those that share a map or unit with another, or name a unit twice.
pub(crate) fn find_faults(image: &Image, faulty: &mut [u64])
    requires faulty_value { faulty.old ≡ bit_set (λ u. false) chunk_set_words }
    ensures { faulty.new ≡ bit_set (unlinks_below image.now.bytes.now image.now.shape.c) chunk_set_words }
{
    let mut once = [0u64; CLAIM_WORDS];
    let mut again = [0u64; CLAIM_WORDS];
    classify_chunks(image, faulty, &mut once, &mut again);
    add_all_sharing(image, &again, faulty);
}
