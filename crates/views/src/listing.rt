// The listing of a volume, as document 01 prints it.
ghost use Rattle.std.specs.Prelude.{◌<◌};
ghost use Rattle.bitset.specs.Bits.{limit};

use access::parts::held;
use bitset::count;
use host::reading::read_file;
use host::{Failure, Word};
use image::{Image, MAP_SET_WORDS, UNIT_SET_WORDS};
use layout::{ABSENT, MAX_IMAGE_BYTES, Shape};
use loader::load::load_into;

// The bytes of a word of the image.
const WORD_BYTES: usize = 8;

fn volume_line(rt: HostRuntime, g: Shape) {
    let Shape { p, c, m, n, .. } = g;
    let _ = println!(rt; "volume chunks {c} per-chunk {p} maps {m} units {n}");
}

// The numbers that a chunk's held words say.
fn units(rt: HostRuntime, words: &[u8]) {
    for j in 0..words.len() / WORD_BYTES {
        let _ = print!(rt; " {}", words::get_u64(words, WORD_BYTES * j));
    }
}

fn chunk_line(rt: HostRuntime, image: &Image, i: usize)
    requires i_lt_c { i < image.now.shape.c }
{
    let map = image.link(i);
    if map == ABSENT {
        let _ = println!(rt; "chunk {i} unmapped");
        return;
    }
    let _ = print!(rt; "chunk {i} map {map} units");
    units(rt, held(image.bytes, i as u64));
    let _ = println!(rt);
}

// A label and how many members a set has.
fn set_line(rt: HostRuntime, label: &str, set: &[u64])
    requires { limit set.now < 4294967296 }
{
    let _ = println!(rt; "{label} {}", count(set));
}

// Lists an image, or says why it is none.
fn list_image(rt: HostRuntime, image: &[u8]) -> Result<Option<Word>, Failure> {
    let mut units = [0u64; UNIT_SET_WORDS];
    let mut maps = [0u64; MAP_SET_WORDS];
    let shape = load_into(image, &mut units, &mut maps)?;
    volume_line(rt, shape);
    let image = Image {
        bytes: image,
        shape,
    };
    for i in 0..shape.c as usize {
        chunk_line(rt, &image, i);
    }
    set_line(rt, "free-units", &units);
    set_line(rt, "free-maps", &maps);
    Ok(Some(Word::Sound))
}

// Lists the file that argument i names.
pub fn list_file(rt: HostRuntime, i: usize) -> Result<Option<Word>, Failure> {
    let mut image = [0u8; MAX_IMAGE_BYTES];
    let length = read_file(rt, i, &mut image)?;
    list_image(rt, &image[..length])
}
