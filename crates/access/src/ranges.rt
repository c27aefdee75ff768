// Splitting a byte range into pieces, and what a piece reads first.
ghost use Rattle.std.specs.Prelude.{◌≡◌, true, false, ◌+◌, ◌*◌, ◌<◌, ◌≤◌, length, MatchResult};
ghost use Rattle.std.proofs.lemmas.List.Edits.{sets};
ghost use Rattle.layout.specs.Layout.{max_chunks, max_chunk_bytes, max_volume_bytes};
ghost use Rattle.layout.specs.Shaped.{Limits, Shaped};
ghost use Rattle.image.specs.Soundness.{mapped};
ghost use Rattle.access.specs.Ranges.{piece_bytes, chunk_bytes, volume_bytes, good_range, first_chunk, last_chunk, piece_count, piece_of, pieces, pieces_of, encode, encode_all, split_in, written, split_answer, split_out, reads_first, access_answer};

use crate::{Access, PIECE_BYTES, Piece};
use image::Image;
use layout::{ABSENT, Refusal, Shape, UNIT_BYTES};
use loader::load::check_image;

// The bytes of a chunk.
fn chunk_bytes(g: Shape) -> u64
    requires { Limits g }
    ensures { (result ≡ chunk_bytes g) × (1 ≤ result) × (result ≤ max_chunk_bytes) }
{
    g.p as u64 * UNIT_BYTES
}

// The bytes of a volume.
fn volume_bytes(g: Shape) -> u64
    requires { Limits g }
    ensures { (result ≡ volume_bytes g) × (result ≤ max_volume_bytes) }
{
    g.c as u64 * chunk_bytes(g)
}

// Whether a range is not empty, on the grain of units and within the volume.
fn good_range(g: Shape, offset: u64, span: u64) -> bool
    requires { Limits g }
    ensures { result ≡ good_range g offset span }
{
    let total = volume_bytes(g);
    span >= 1
        && offset % UNIT_BYTES == 0
        && span % UNIT_BYTES == 0
        && offset <= total
        && span <= total - offset
}

// The bytes of a good range: those from lo up to hi, without hi, of a volume whose chunks have b bytes.
#[derive(Clone, Copy)]
struct Bytes {
    b: u64,
    lo: u64,
    hi: u64,
    ghost b_low: { 1 ≤ b },
    ghost b_high: { b ≤ max_chunk_bytes },
    ghost some: { lo < hi },
    ghost within: { hi ≤ max_chunks * b },
}

impl Bytes {
    // The bytes of a range of a volume of shape g, if the range is good.
    fn new(g: Shape, offset: u64, span: u64) -> Result<Bytes, Refusal>
        requires { Limits g }
        ensures { MatchResult result
            (λ x. (good_range g offset span ≡ true) × (x.b ≡ chunk_bytes g) × (x.lo ≡ offset) × (x.hi ≡ offset + span))
            (λ r. (good_range g offset span ≡ false) × (r ≡ Refusal.Range)) }
    {
        if !good_range(g, offset, span) {
            return Err(Refusal::Range);
        }
        Ok(Bytes {
            b: chunk_bytes(g),
            lo: offset,
            hi: offset + span,
        })
    }

    // The chunk of the first byte.
    fn first_chunk(self) -> u64
        ensures { result ≡ first_chunk self.b self.lo }
    {
        self.lo / self.b
    }

    // The chunk of the last byte.
    fn last_chunk(self) -> u64
        ensures { result ≡ last_chunk self.b self.hi }
    {
        (self.hi - 1) / self.b
    }

    // What of the bytes lies in chunk i.
    fn piece(self, i: u64) -> Piece
        requires { (i * self.b ≤ self.hi) × (self.lo ≤ i * self.b + self.b) × (i < max_chunks) }
        ensures { result ≡ piece_of self.b self.lo self.hi i }
    {
        let base = i * self.b;
        let start = self.lo.max(base);
        let end = self.hi.min(base + self.b);
        Piece {
            chunk: i as u32,
            offset: (start - base) as u32,
            len: (end - start) as u32,
        }
    }
}

// Stores the twelve bytes of a piece.
fn put_piece(out: &mut [u8], at: usize, x: Piece)
    requires { at + 12 ≤ length out.old }
    ensures { out.new ≡ sets out.old at (encode x) }
{
    words::put_u32(out, at, x.chunk);
    words::put_u32(out, at + 4, x.offset);
    words::put_u32(out, at + 8, x.len);
}

// Stores the pieces of a good range, `count` of them.
fn put_pieces(out: &mut [u8], bytes: Bytes, count: u64)
    requires { (count ≡ piece_count bytes.b bytes.lo bytes.hi) × (piece_bytes * count ≤ length out.old) }
    ensures { out.new ≡ sets out.old 0 (encode_all (pieces bytes.b bytes.lo bytes.hi)) }
{
    let first = bytes.first_chunk();
    for k in 0..count {
        put_piece(out, (PIECE_BYTES * k) as usize, bytes.piece(first + k));
    }
}

// Splits a range of a volume of shape g.
fn split_in(g: Shape, offset: u64, span: u64, out: &mut [u8]) -> Result<u32, Refusal>
    requires { Limits g }
    ensures value { result ≡ split_in g offset span (length out.old) }
    ensures out_after { out.new ≡ written (split_in g offset span (length out.old)) (pieces_of g offset span) out.old }
{
    let bytes = Bytes::new(g, offset, span)?;
    let count = bytes.last_chunk() + 1 - bytes.first_chunk();
    let need = PIECE_BYTES * count;
    if (out.len() as u64) < need {
        return Err(Refusal::Small(need as u32));
    }
    put_pieces(out, bytes, count);
    Ok(count as u32)
}

// Splits a byte range at chunk boundaries, and stores its pieces in `out`.
pub fn split(image: &[u8], offset: u64, span: u64, out: &mut [u8]) -> Result<u32, Refusal>
    ensures value { result ≡ split_answer image.now offset span (length out.old) }
    ensures out_after { out.new ≡ split_out image.now offset span out.old }
{
    let g = check_image(image)?;
    split_in(g, offset, span, out)
}

// What a piece reads first, in an image of shape g.
pub fn access_on(image: &Image, write: bool, offset: u64, span: u64) -> Result<Access, Refusal>
    ensures { result ≡ reads_first image.now.shape (mapped image.now.bytes.now) write offset span }
{
    let bytes = Bytes::new(image.shape, offset, span)?;
    let first = bytes.first_chunk();
    if first != bytes.last_chunk() {
        return Err(Refusal::Range);
    }
    if write && span == bytes.b {
        return Ok(Access::Nothing);
    }
    if image.link(first as usize) == ABSENT {
        return Ok(Access::Zeros);
    }
    Ok(Access::Chunk)
}

// What a read or a write of a byte range within one chunk reads first.
pub fn access(image: &[u8], write: bool, offset: u64, span: u64) -> Result<Access, Refusal>
    ensures { result ≡ access_answer image.now write offset span }
{
    let shape = check_image(image)?;
    access_on(
        &Image {
            bytes: image,
            shape,
        },
        write,
        offset,
        span,
    )
}
