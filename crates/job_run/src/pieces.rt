// The bytes that pieces have.
ghost use Rattle.std.specs.Prelude.{◌≡◌, ◌+◌, ◌<◌, ◌≤◌, ◌∷◌, [], ℕ, Some, drop, length, map, replicate, slice_get, slice_set, take};
ghost use Rattle.cp_base.specs.Region.{Region, region_of};
ghost use Rattle.trail_model.specs.Pieces.{RegionBytes, carried, gathered};
ghost use Rattle.job_run.specs.Held.{BeginsOnce, IsAlone, IsHeld, begins, holds};
ghost use Rattle.job_run.specs.Works.{byte_counts, piece_holding, piece_regions, pieces_with, region_bytes};

use cp_base::{Bytes, Piece, SpaceId};
use std::mem;

/// The `len` bytes of a namespace from place `start` on, which lie in one piece and in no other.
pub(crate) fn bytes_at<'p>(pieces: &'p [Piece], space: SpaceId, start: u64, len: u64) -> &'p [u8]
    requires { IsHeld (region_bytes pieces.now) (region_of space start len) }
    ensures { result.now ≡ gathered (carried (region_bytes pieces.now)) space start len }
{
    for piece in pieces {
        if has(piece, space, start, len) {
            return part(piece.bytes.as_slice(), start - piece.range.start(), len);
        }
    }
    &[]
}

// The `len` bytes of a list from a place on.
fn part(bytes: &[u8], from: u64, len: u64) -> &[u8]
    requires { from + len ≤ length bytes.now }
    ensures { result.now ≡ take len (drop from bytes.now) }
{
    let rest = &bytes[from as usize..];
    &rest[..len as usize]
}

// Whether these bytes lie in a piece.
fn has(piece: &Piece, space: SpaceId, start: u64, len: u64) -> bool
    ensures { result ≡ holds piece.now.range (region_of space start len) }
{
    piece.range.space() == space
        && piece.range.start() <= start
        && len <= piece.range.len()
        && start - piece.range.start() <= piece.range.len() - len
}

/// Which piece begins at a place; one does.
pub(crate) fn index_at(pieces: &[Piece], space: SpaceId, start: u64) -> usize
    requires { BeginsOnce space start (piece_regions pieces.now) }
    ensures inside { result < length pieces.now }
    ensures alone { (written : RegionBytes) → slice_get (piece_regions pieces.now) result ≡ Some written.region
        → written.region.space ≡ space → written.region.start ≡ start
        → pieces_with written (region_bytes pieces.now) ≡ slice_set (region_bytes pieces.now) result written }
    ensures found { (region : Region) → IsAlone region (piece_regions pieces.now) → region.space ≡ space
        → region.start ≡ start
        → slice_get (piece_regions pieces.now) result ≡ Some region }
{
    for (i, piece) in pieces.iter().enumerate() {
        if piece.range.space() == space && piece.range.start() == start {
            return i;
        }
    }
    0
}

/// Moves the bytes of a piece out, and leaves none in it.
pub(crate) fn take_bytes(pieces: &mut Vec<Piece>, index: usize) -> Bytes
    requires { index < length pieces.old.items }
    ensures bytes { (piece : RegionBytes) → slice_get (region_bytes pieces.old.items) index ≡ Some piece
        → result.items ≡ piece.bytes }
    ensures left { (piece : RegionBytes) → slice_get (region_bytes pieces.old.items) index ≡ Some piece
        → region_bytes pieces.new.items ≡ slice_set (region_bytes pieces.old.items) index (piece_holding [] piece) }
{
    let nothing = Bytes::new(*pieces.allocator());
    mem::replace(&mut pieces[index].bytes, nothing)
}

/// Moves bytes into a piece.
pub(crate) fn put_bytes(pieces: &mut Vec<Piece>, index: usize, bytes: Bytes)
    requires { index < length pieces.old.items }
    ensures { (piece : RegionBytes) → slice_get (region_bytes pieces.old.items) index ≡ Some piece
        → region_bytes pieces.new.items
        ≡ slice_set (region_bytes pieces.old.items) index (piece_holding bytes.items piece) }
{
    pieces[index].bytes = bytes;
}

/// The bytes of the only piece.
pub(crate) fn only(pieces: &[Piece]) -> &[u8]
    requires { length pieces.now ≡ 1 }
    ensures { (piece : RegionBytes) → region_bytes pieces.now ≡ piece ∷ [] → result.now ≡ piece.bytes }
{
    pieces[0].bytes.as_slice()
}

/// Puts as many bytes as the only piece has over those that it has.
pub(crate) fn write(pieces: &mut Vec<Piece>, bytes: &[u8])
    requires { byte_counts (region_bytes pieces.old.items) ≡ length bytes.now ∷ [] }
    ensures { region_bytes pieces.new.items ≡ map (piece_holding bytes.now) (region_bytes pieces.old.items) }
{
    pieces[0].bytes.write(0, bytes);
}

/// Puts the same byte over all those of the only piece.
pub(crate) fn fill(pieces: &mut Vec<Piece>, value: u8)
    requires { length pieces.old.items ≡ 1 }
    ensures { (n : ℕ) → byte_counts (region_bytes pieces.old.items) ≡ n ∷ []
        → region_bytes pieces.new.items ≡ map (piece_holding (replicate n value)) (region_bytes pieces.old.items) }
{
    let piece = &mut pieces[0];
    let len = piece.bytes.len();
    piece.bytes.fill(0, len, value);
}
