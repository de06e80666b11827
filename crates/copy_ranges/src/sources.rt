// The checks of all sources of a copy.
ghost use Rattle.std.specs.Prelude.{◌≡◌, ◌+◌, ◌*◌, ◌^◌, ◌<◌, ◌≤◌, false, is_none, map, length, IfSome};
ghost use Rattle.std.specs.List.{list_any};
ghost use Rattle.cp_base.specs.Checks.{any_without_bytes, total_len};
ghost use Rattle.cp_base.specs.Sharing.{is_nowhere, is_outside, meets_any, source_region};

use crate::wide::WideRange;
use cp_base::{ByteRange, Config, CopySource, MAX_ITEMS};
use smallvec::SmallVec;
use std::alloc::Global;

// Whether a source lies in no namespace.
pub(crate) fn any_nowhere(config: &Config, sources: &[CopySource]) -> bool
    ensures { result ≡ list_any (is_nowhere config.now) (map (source_region config.now) sources.now) }
{
    sources
        .iter()
        .map(|source| WideRange::of(config, source))
        .any(|range| range.is_nowhere(config))
}

// Whether a source has no bytes.
pub(crate) fn any_without_bytes(config: &Config, sources: &[CopySource]) -> bool
    ensures { result ≡ any_without_bytes (map (source_region config.now) sources.now) }
{
    sources
        .iter()
        .map(|source| WideRange::of(config, source))
        .any(|range| range.len() == 0)
}

// How many bytes the sources have together.
pub(crate) fn total_len(config: &Config, sources: &[CopySource]) -> u128
    requires { length sources.now ≤ MAX_ITEMS }
    ensures value { result ≡ total_len (map (source_region config.now) sources.now) }
    ensures bounded { result < 2 ^ 101 }
{
    let mut total = 0u128;
    for source in sources {
        total += WideRange::of(config, source).len();
    }
    total
}

#[tactic(auto, using(crate::proofs::SourceBytes::any_outside, crate::proofs::SourceBytes::has_bytes))]
// The bytes of the sources, which all have some. `None` where a byte lies outside its namespace.
pub(crate) fn ranges(
    alloc: Global,
    config: &Config,
    sources: &[CopySource],
) -> Option<SmallVec<ByteRange, MAX_ITEMS>>
    requires few { length sources.now ≤ MAX_ITEMS }
    requires some { any_without_bytes (map (source_region config.now) sources.now) ≡ false }
    ensures outside { is_none result ≡ list_any (is_outside config.now) (map (source_region config.now) sources.now) }
    ensures value { IfSome result (λ ranges. ranges.items ≡ map (source_region config.now) sources.now) }
{
    let mut ranges = SmallVec::new(alloc);
    for source in sources {
        ranges.push_reserved(WideRange::of(config, source).inside(config)?);
    }
    Some(ranges)
}

// Whether a range shares a byte with one of these.
pub(crate) fn meets_any(ranges: &[ByteRange], range: &ByteRange) -> bool
    ensures { result ≡ meets_any ranges.now range.now }
{
    ranges.iter().any(|other| range.overlaps(other))
}
