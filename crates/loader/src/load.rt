// The loader: an image's first refusal, or its shape and what is free.
ghost use Rattle.std.specs.Prelude.{◌≡◌, replicate, false};
ghost use Rattle.image.specs.Verdicts.{chunk_verdict};
ghost use Rattle.image.specs.Survey.{passed};
ghost use Rattle.image.specs.Loading.{unit_set_words, map_set_words, loaded};
ghost use Rattle.image.specs.Outcomes.{outcome, LoadedInto};

use crate::survey::{passes, survey};
use image::judge::judge;
use image::{Image, Loaded, MAP_SET_WORDS, UNIT_SET_WORDS};
use layout::trailers::check_trailer;
use layout::{Refusal, Shape};

// The refusal of an image whose trailer passes, where row 4, 5 or 6 holds. The scans' sets are made here; what they leave is not asked for.
fn refusal(image: &Image) -> Refusal
    requires image_value { passed (chunk_verdict image.now.bytes.now) ≡ false }
    ensures { chunk_verdict image.now.bytes.now ≡ Err result }
{
    let mut units = [0u64; UNIT_SET_WORDS];
    let mut maps = [0u64; MAP_SET_WORDS];
    judge(image, &mut units, &mut maps).unwrap_err()
}

// The first refusal of rows 1 to 6, or the shape of a sound image: then the lent sets, which begin empty, are left with what is free. Most images are
// sound, and one pass says so.
pub fn load_into(image: &[u8], units: &mut [u64], maps: &mut [u64]) -> Result<Shape, Refusal>
    requires { (units.old ≡ replicate unit_set_words 0) × (maps.old ≡ replicate map_set_words 0) }
    ensures { LoadedInto image.now result units.new maps.new }
{
    let shape = check_trailer(image)?;
    let image = Image {
        bytes: image,
        shape,
    };
    if survey(&image, units, maps) {
        return Ok(shape);
    }
    Err(refusal(&image))
}

// The first refusal of rows 1 to 6, or the shape of a sound image, where nobody asks what is free. It does not go through `load_into`: a compiler
// would put the scans into the one caller of `refusal`, and keep that out of every call, which then takes 1.1 to 1.8 times as long on small volumes.
pub fn check_image(image: &[u8]) -> Result<Shape, Refusal>
    ensures { result ≡ outcome image.now }
{
    let shape = check_trailer(image)?;
    let image = Image {
        bytes: image,
        shape,
    };
    if passes(&image) {
        return Ok(shape);
    }
    Err(refusal(&image))
}

// The same in one value, with the sets.
pub fn load(image: &[u8]) -> Result<Loaded, Refusal>
    ensures { result ≡ loaded image.now }
{
    let mut units = [0u64; UNIT_SET_WORDS];
    let mut maps = [0u64; MAP_SET_WORDS];
    let shape = load_into(image, &mut units, &mut maps)?;
    Ok(Loaded { shape, units, maps })
}
