// The stored size of a chunk.
use access::sizes::stored_size;
use host::reading::read_file;
use host::{Failure, Word};
use layout::MAX_IMAGE_BYTES;

// Prints the stored size of a chunk of the image that argument 1 names.
pub(crate) fn size_file(rt: HostRuntime, chunk: u64) -> Result<Option<Word>, Failure> {
    let mut image = [0u8; MAX_IMAGE_BYTES];
    let length = read_file(rt, 1, &mut image)?;
    let bytes = stored_size(&image[..length], chunk)?;
    let _ = println!(rt; "chunk {chunk} size {bytes}");
    Ok(Some(Word::Sized))
}
