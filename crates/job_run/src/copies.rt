// Copies among pieces.
ghost use Rattle.std.specs.Prelude.{◌≡◌, ◌≤◌, ◌++◌, length, map};
ghost use Rattle.std.specs.List.{AllByRecursion};
ghost use Rattle.cp_base.specs.Checks.{destination_of, total_len};
ghost use Rattle.cp_base.specs.Configuration.{bare};
ghost use Rattle.cp_base.specs.Sharing.{source_region};
ghost use Rattle.trail_model.specs.Pieces.{RegionBytes, carried, gathered_joined};
ghost use Rattle.job_run.specs.Held.{IsAlone, IsBeside, IsSource, gathered_region};
ghost use Rattle.job_run.specs.Works.{piece_regions, pieces_with, region_bytes};

use crate::pieces::{bytes_at, index_at, put_bytes, take_bytes};
use cp_base::{Bytes, CopySource, Piece, SpaceId};

/// Puts the bytes of the sources, one after the other, into the piece that begins at a place. No source shares a
/// byte with it.
pub(crate) fn copy(
    pieces: &mut Vec<Piece>,
    block: u32,
    space: SpaceId,
    start: u64,
    from: &[CopySource],
)
    requires alone { IsAlone (destination_of space start (map (source_region (bare block 1 1)) from.now))
        (piece_regions pieces.old.items) }
    requires whole { AllByRecursion (λ (piece : RegionBytes). length piece.bytes ≡ piece.region.len)
        (region_bytes pieces.old.items) }
    requires held { AllByRecursion (λ source. IsSource (region_bytes pieces.old.items) (source_region (bare block 1 1) source)) from.now }
    requires beside { AllByRecursion (λ source. IsBeside (destination_of space start (map (source_region (bare block 1 1)) from.now))
        (source_region (bare block 1 1) source)) from.now }
    ensures { region_bytes pieces.new.items ≡ pieces_with (record {
      region = destination_of space start (map (source_region (bare block 1 1)) from.now);
      bytes = gathered_joined (carried (region_bytes pieces.old.items)) (map (source_region (bare block 1 1)) from.now);
    })
        (region_bytes pieces.old.items) }
{
    let index = index_at(pieces, space, start);
    let mut made = take_bytes(pieces, index);
    made.clear();
    gather(&mut made, pieces, block, from);
    put_bytes(pieces, index, made);
}

// Adds the bytes of the sources, one after the other.
fn gather(made: &mut Bytes, pieces: &[Piece], block: u32, from: &[CopySource])
    requires held { AllByRecursion (λ source. IsSource (region_bytes pieces.now) (source_region (bare block 1 1) source)) from.now }
    requires room { total_len (map (source_region (bare block 1 1)) from.now) ≤ made.old.spare }
    ensures { made.new.items
        ≡ made.old.items
        ++ gathered_joined (carried (region_bytes pieces.now)) (map (source_region (bare block 1 1)) from.now) }
{
    for source in from {
        made.append(source_bytes(pieces, block, source));
    }
}

// The bytes of a source.
fn source_bytes<'p>(pieces: &'p [Piece], block: u32, source: &CopySource) -> &'p [u8]
    requires { IsSource (region_bytes pieces.now) (source_region (bare block 1 1) source.now) }
    ensures { result.now
        ≡ gathered_region (carried (region_bytes pieces.now)) (source_region (bare block 1 1) source.now) }
{
    let block = u64::from(block);
    match source {
        CopySource::Nvm { ns, lba, count } => {
            bytes_at(pieces, SpaceId::Nvm(*ns), *lba * block, *count * block)
        }
        CopySource::Mem { ns, at, len } => bytes_at(pieces, SpaceId::Mem(*ns), *at, *len),
    }
}
