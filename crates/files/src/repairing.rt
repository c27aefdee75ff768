// Damaged images repaired in their files.
use host::making::rewrite_file;
use host::reading::read_file;
use host::saying::number_line;
use host::{Failure, Told, Word};
use layout::{MAX_CHUNKS, MAX_IMAGE_BYTES};
use repair::mend::{NUMBER_BYTES, repair};

// The bytes of the list of all chunks.
const LIST_ROOM: usize = NUMBER_BYTES * MAX_CHUNKS as usize;

// The numbers of a list of chunks, one a line.
fn chunk_numbers(rt: HostRuntime, list: &[u8]) -> Result<(), Told> {
    for k in 0..list.len() / NUMBER_BYTES {
        number_line(rt, u64::from(words::get_u32(list, NUMBER_BYTES * k)))?;
    }
    Ok(())
}

// Writes a repaired image back to the file that argument i names, and then prints the list of the
// chunks that were unlinked: what is printed is synced. An empty list is a sound image, whose file
// is not even opened for writing. A list that could not be printed is lost, and no sound image.
//
// A power failure before the file is synced is not covered: some of the entries may then be X on
// the disk and others not. Repaired again, what is found becomes sound; but of two chunks that
// shared a unit one may have been unlinked already, and the other is then found alone on it and
// stays linked.
fn keep_repaired(rt: HostRuntime, i: usize, image: &[u8], list: &[u8]) -> Result<(), Told> {
    if list.is_empty() {
        return Ok(());
    }
    rewrite_file(rt, i, image)?;
    chunk_numbers(rt, list)
}

// Repairs an image, which argument i names; a refused one is not written. The list of an answer is
// all that it prints.
fn repair_image(rt: HostRuntime, i: usize, image: &mut [u8]) -> Result<Option<Word>, Failure> {
    let mut list = [0u8; LIST_ROOM];
    let n = repair(image, &mut list)?;
    keep_repaired(rt, i, image, &list[..NUMBER_BYTES * n as usize])?;
    Ok(None)
}

// Repairs the image file that argument i names.
pub fn repair_file(rt: HostRuntime, i: usize) -> Result<Option<Word>, Failure> {
    let mut image = [0u8; MAX_IMAGE_BYTES];
    let length = read_file(rt, i, &mut image)?;
    repair_image(rt, i, &mut image[..length])
}
