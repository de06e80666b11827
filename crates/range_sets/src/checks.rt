// The checks of the ranges of a new set.
ghost use Rattle.std.specs.Prelude.{◌≡◌, ◌+◌, ◌==◌, Some, None, MatchResult, OnOk, nat_lt};
ghost use Rattle.cp_base.specs.Checks.{first_failing};
ghost use Rattle.cp_base.specs.Sharing.{any_overlap, is_nowhere, is_outside, range_region, shares_byte};
ghost use Rattle.range_sets.specs.Fit.{AreFit, range_checks, regions_of};
ghost use Rattle.std.specs.List.{list_any};

use cp_base::{Config, MemRange, SpaceId, Status};

// Whether there is no such memory namespace.
fn is_nowhere(config: &Config, range: &MemRange) -> bool
    ensures { result ≡ is_nowhere config.now (range_region range.now) }
{
    config.size(SpaceId::Mem(range.ns)).is_none()
}

// Whether a byte lies outside the namespace.
fn is_outside(config: &Config, range: &MemRange) -> bool
    ensures { result ≡ is_outside config.now (range_region range.now) }
{
    let size = config.size(SpaceId::Mem(range.ns)).unwrap_or(0);
    range.at > size || range.len > size - range.at
}

// Whether a place lies before the end of a range.
fn is_before_end(at: u64, range: &MemRange) -> bool
    ensures { result ≡ nat_lt at (range.now.at + range.now.len) }
{
    at < range.at || at - range.at < range.len
}

// Whether two ranges have a byte in common.
fn shares_byte(a: &MemRange, b: &MemRange) -> bool
    ensures { result ≡ shares_byte (range_region a.now) (range_region b.now) }
{
    a.ns == b.ns && a.len > 0 && b.len > 0 && is_before_end(a.at, b) && is_before_end(b.at, a)
}

// Whether a range shares a byte with one of these.
fn meets_any(ranges: &[MemRange], range: &MemRange) -> bool
    ensures { result ≡ list_any (λ other. shares_byte (range_region range.now) (range_region other)) ranges.now }
{
    ranges.iter().any(|other| shares_byte(range, other))
}

// Whether two of the ranges have a byte in common.
#[tactic(auto, using(crate::proofs::Mapped::any_mapped))]
fn any_overlap(ranges: &[MemRange]) -> bool
    ensures { result ≡ any_overlap (regions_of ranges.now) }
{
    match ranges.split_first() {
        Some((first, rest)) => meets_any(rest, first) || any_overlap(rest),
        None => false,
    }
}

// Whether one of the ranges lies in no namespace.
fn any_nowhere(config: &Config, ranges: &[MemRange]) -> bool
    ensures { result ≡ list_any (λ range. is_nowhere config.now (range_region range)) ranges.now }
{
    ranges.iter().any(|range| is_nowhere(config, range))
}

// Whether one of the ranges has a byte outside its namespace.
fn any_outside(config: &Config, ranges: &[MemRange]) -> bool
    ensures { result ≡ list_any (λ range. is_outside config.now (range_region range)) ranges.now }
{
    ranges.iter().any(|range| is_outside(config, range))
}

// Whether one of the ranges has no bytes.
fn any_without_bytes(ranges: &[MemRange]) -> bool
    ensures { result ≡ list_any (λ range. range.len == 0) ranges.now }
{
    ranges.iter().any(|range| range.len == 0)
}

/// Whether ranges can be those of a set, or else the status of the first check that fails.
#[tactic(auto, using(crate::proofs::Mapped::any_mapped))]
pub(crate) fn check_ranges(config: &Config, ranges: &[MemRange]) -> Result<(), Status>
    ensures checked { MatchResult result
        (λ _. first_failing (range_checks config.now (regions_of ranges.now)) ≡ None)
        (λ status. first_failing (range_checks config.now (regions_of ranges.now)) ≡ Some status) }
    ensures fit { OnOk result (AreFit config.now ranges.now) }
{
    if any_nowhere(config, ranges) {
        return Err(Status::BadNamespace);
    }
    if any_without_bytes(ranges) {
        return Err(Status::BadLength);
    }
    if any_outside(config, ranges) {
        return Err(Status::OutOfRange);
    }
    if any_overlap(ranges) {
        return Err(Status::RangeOverlap);
    }
    Ok(())
}
