// Rows 4 to 6 by scans over the chunks: which refusal an image gets.
ghost use Rattle.std.specs.Prelude.{◌≡◌, length};
ghost use Rattle.image.specs.Loading.{unit_set_words, map_set_words};
ghost use Rattle.image.specs.Claims.{Judged};

use crate::Image;
use crate::claims::first_double_claim;
use crate::clashes::first_claim;
use crate::scan::{first_bad_link, first_bad_map};
use layout::Refusal;

// Rows 4 to 6, of an image whose trailer passes; where none holds, the sets are left with what is free.
pub fn judge(image: &Image, units: &mut [u64], maps: &mut [u64]) -> Result<(), Refusal>
    requires units_len { (length units.old ≡ unit_set_words) × (length maps.old ≡ map_set_words) }
    ensures { Judged image.now.bytes.now result units.new maps.new }
{
    let c = image.shape.c as usize;
    let i = first_bad_link(image);
    if i < c {
        return Err(Refusal::BadLink(i as u32));
    }
    let k = first_bad_map(image);
    if k < c {
        return Err(Refusal::BadMap(k as u32));
    }
    let j = first_double_claim(image, units, maps);
    if j < c {
        let first = first_claim(image, j);
        return Err(Refusal::Shared(first as u32, j as u32));
    }
    Ok(())
}
