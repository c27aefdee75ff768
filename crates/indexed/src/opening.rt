// Opening an image: the one call with an index that judges it.
ghost use Rattle.std.specs.Prelude.{◌≡◌, length};
ghost use Rattle.indexed.specs.Opening.{open_outcome, open_sets};

use crate::SET_BYTES;
use image::{MAP_SET_WORDS, UNIT_SET_WORDS};
use layout::{Refusal, Shape};
use loader::load::load_into;
use renewal::SET_WORDS;

// Judges an image, and leaves the sets of what is free in the lent words: refusals 1 to 6 and 10. The sets are made in words of its own, for a refusal alters
// nothing that is lent.
pub fn open(image: &[u8], sets: &mut [u64]) -> Result<Shape, Refusal>
    ensures value { result ≡ open_outcome image.now (length sets.old) }
    ensures sets_after { sets.new ≡ open_sets image.now sets.old }
{
    let mut units = [0u64; UNIT_SET_WORDS];
    let mut maps = [0u64; MAP_SET_WORDS];
    let g = load_into(image, &mut units, &mut maps)?;
    if sets.len() < SET_WORDS {
        return Err(Refusal::Small(SET_BYTES));
    }
    sets[..UNIT_SET_WORDS].copy_from_slice(&units);
    sets[UNIT_SET_WORDS..SET_WORDS].copy_from_slice(&maps);
    Ok(g)
}
