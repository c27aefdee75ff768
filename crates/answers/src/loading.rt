// Load with its answer in a lent output of words.
ghost use Rattle.std.specs.Prelude.{◌≡◌, ◌≤◌, ◌++◌, length};
ghost use Rattle.std.proofs.lemmas.List.Edits.{sets};
ghost use Rattle.image.specs.Loading.{unit_set_words, map_set_words};
ghost use Rattle.answers.specs.Loading.{load_words, shape_words, load_answer, load_out};

use crate::Answer;
use crate::numbers::{given, refused};
use image::{MAP_SET_WORDS, UNIT_SET_WORDS};
use layout::{Refusal, Shape};

// P, C, M and N, and where the two sets begin and end in the output.
const UNITS_AT: usize = 4;

const MAPS_AT: usize = UNITS_AT + UNIT_SET_WORDS;

const LOAD_WORDS: usize = MAPS_AT + MAP_SET_WORDS;

const LOAD_BYTES: u32 = 8 * LOAD_WORDS as u32;

// Stores P, C, M and N.
fn put_shape(out: &mut [u64], g: Shape)
    requires { 4 ≤ length out.old }
    ensures { out.new ≡ sets out.old 0 (shape_words g) }
{
    out[0] = g.p as u64;
    out[1] = g.c as u64;
    out[2] = g.m as u64;
    out[3] = g.n as u64;
}

// Stores what load answered.
fn put_loaded(out: &mut [u64], g: Shape, units: &[u64], maps: &[u64])
    requires load_words_in_bounds { load_words ≤ length out.old }
    requires units_len { (length units.now ≡ unit_set_words) × (length maps.now ≡ map_set_words) }
    ensures { out.new ≡ sets out.old 0 (shape_words g ++ (units.now ++ maps.now)) }
{
    put_shape(out, g);
    out[UNITS_AT..MAPS_AT].copy_from_slice(units);
    out[MAPS_AT..LOAD_WORDS].copy_from_slice(maps);
}

// Loads an image into a lent output of at least 81 words, and answers how many units are reserved.
pub fn load(image: &[u8], out: &mut [u64]) -> Answer
    ensures value { result ≡ load_answer image.now (length out.old) }
    ensures out_after { out.new ≡ load_out image.now out.old }
{
    let mut units = [0u64; UNIT_SET_WORDS];
    let mut maps = [0u64; MAP_SET_WORDS];
    let o = loader::load::load_into(image, &mut units, &mut maps);
    match o {
        Err(r) => refused(r),
        Ok(g) => {
            if out.len() < LOAD_WORDS {
                return refused(Refusal::Small(LOAD_BYTES));
            }
            put_loaded(out, g, &units, &maps);
            given(g.r as u64, 0)
        }
    }
}
