// What a request says: its chunk, its size, the units that it needs, and whether its size is good.
ghost use Rattle.std.specs.Prelude.{◌≡◌, ◌≤◌};
ghost use Rattle.layout.specs.Layout.{max_chunk_units, max_chunk_bytes};
ghost use Rattle.steps.specs.Steps.{chunk_of, size_of, need_of, good_size};

use crate::Request;
use layout::Shape;
use layout::geometry::{is_size, units_for};

// The chunk of a request.
pub fn chunk_of(request: Request) -> u64
    ensures { result ≡ chunk_of request }
{
    match request {
        Request::Write { chunk, .. } | Request::Discard { chunk } => chunk,
    }
}

// A write's compressed size; 0 for a discard.
pub fn size_of(request: Request) -> u64
    ensures { result ≡ size_of request }
{
    match request {
        Request::Write { size, .. } => size,
        Request::Discard { .. } => 0,
    }
}

// How many units a request needs: none for a discard.
pub fn need_of(request: Request) -> u32
    requires { size_of request ≤ max_chunk_bytes }
    ensures { (result ≡ need_of request) × (result ≤ max_chunk_units) }
{
    match request {
        Request::Write { size, .. } => units_for(size) as u32,
        Request::Discard { .. } => 0,
    }
}

// Whether a request's size is 1 to P·4,096.
pub fn good_size(g: Shape, request: Request) -> bool
    ensures { result ≡ good_size g request }
{
    match request {
        Request::Write { size, .. } => is_size(g, size),
        Request::Discard { .. } => true,
    }
}
