// The repair: chunks with a fault are unlinked, and listed.
ghost use Rattle.std.specs.Prelude.{◌≡◌, true, ℕ, ◌+◌, ◌*◌, ◌≤◌, ◌<◌, length};
ghost use Rattle.std.proofs.lemmas.List.Edits.{sets};
ghost use Rattle.bitset.specs.Bits.{limit, in_set, members};
ghost use Rattle.layout.specs.Shaped.{Shaped};
ghost use Rattle.repair.specs.Repair.{unlinked, unlink, repaired, list_bytes, listing, if_room, repair_answer, unless_refused, repair_image, repair_list};

use crate::CHUNK_SET_WORDS;
use crate::faults::find_faults;
use bitset::{count, next_member};
use image::Image;
use layout::trailers::check_trailer;
use layout::{ABSENT, Refusal, Shape};
use loader::survey::passes;

// The bytes of a chunk number in the list.
pub const NUMBER_BYTES: usize = 4;

// Sets the entries of the members of a set to X, and lists the members, `n` of them.
fn unlink_members(image: &mut [u8], out: &mut [u8], faulty: &[u64], n: usize)
    requires faulty_bound { (limit faulty.now < 4294967296) × (n ≡ length (members faulty.now)) × (4 * n ≤ length out.old) }
    requires by_index { (u : ℕ) → in_set faulty.now u ≡ true → 8 * u + 8 ≤ length image.old }
    ensures image_after { image.new ≡ unlink image.old (members faulty.now) }
    ensures out_after { out.new ≡ sets out.old 0 (list_bytes (members faulty.now)) }
{
    let mut from: usize = 0;
    for k in 0..n {
        let i = next_member(faulty, from);
        words::put_u64(image, 8 * i, ABSENT);
        words::put_u32(out, NUMBER_BYTES * k, i as u32);
        from = i + 1;
    }
}

// The repair of an image whose trailer passes: refusal 10.
fn repair_in(image: &mut [u8], g: Shape, out: &mut [u8]) -> Result<u32, Refusal>
    requires { Shaped image.old g }
    ensures value { result ≡ if_room (length out.old) (length (unlinked image.old)) }
    ensures image_after { image.new
        ≡ unless_refused (if_room (length out.old) (length (unlinked image.old))) (repaired image.old) image.old }
    ensures out_after { out.new
        ≡ unless_refused (if_room (length out.old) (length (unlinked image.old)))
        (listing image.old out.old) out.old }
{
    let mut faulty = [0u64; CHUNK_SET_WORDS];
    find_faults(
        &Image {
            bytes: image,
            shape: g,
        },
        &mut faulty,
    );
    let n = count(&faulty);
    if out.len() < NUMBER_BYTES * n {
        return Err(Refusal::Small((NUMBER_BYTES * n) as u32));
    }
    unlink_members(image, out, &faulty, n);
    Ok(n as u32)
}

// Unlinks the chunks with a fault, and stores their numbers in `out`, a u32 each, rising: refusals 1 to 3 and 10. One pass tells a sound image, which has none.
pub fn repair(image: &mut [u8], out: &mut [u8]) -> Result<u32, Refusal>
    ensures value { result ≡ repair_answer image.old (length out.old) }
    ensures image_after { image.new ≡ repair_image image.old (length out.old) }
    ensures out_after { out.new ≡ repair_list image.old out.old }
{
    let g = check_trailer(image)?;
    if passes(&Image {
        bytes: image,
        shape: g,
    }) {
        return Ok(0);
    }
    repair_in(image, g, out)
}
