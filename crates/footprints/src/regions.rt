// The ranges of a set, in bytes.
ghost use Rattle.std.specs.Prelude.{◌≡◌, ◌==◌, ◌≤◌, false, map, length};
ghost use Rattle.std.specs.List.{list_any};
ghost use Rattle.cp_base.specs.Checks.{any_without_bytes};
ghost use Rattle.cp_base.specs.Sharing.{is_outside, range_region};
ghost use Rattle.trail_model.specs.Footprints.{writable_ranges};

use cp_base::{Access, ByteRange, Config, MAX_ITEMS, MemRange};
use slm_bytes::bytes_to_range;
use smallvec::SmallVec;
use std::alloc::Global;

// The bytes of a range that has some and lies inside its namespace.
#[tactic(auto, using(crate::proofs::Ranges::byte_checks_pass))]
fn region(config: &Config, range: &MemRange) -> ByteRange
    requires some { (range.now.len == 0) ≡ false }
    requires inside { is_outside config.now (range_region range.now) ≡ false }
    ensures { result ≡ range_region range.now }
{
    bytes_to_range(config, range.ns, range.at, range.len, u64::MAX).unwrap()
}

// The bytes of ranges that are not empty and lie inside their namespaces.
#[tactic(auto, using(crate::proofs::Ranges::none_at))]
pub(crate) fn bytes_of(
    alloc: Global,
    config: &Config,
    ranges: &[MemRange],
) -> SmallVec<ByteRange, MAX_ITEMS>
    requires few { length ranges.now ≤ MAX_ITEMS }
    requires not_empty { any_without_bytes (map range_region ranges.now) ≡ false }
    requires inside { list_any (is_outside config.now) (map range_region ranges.now) ≡ false }
    ensures { result.items ≡ map range_region ranges.now }
{
    let mut bytes = SmallVec::new(alloc);
    for range in ranges {
        bytes.push_reserved(region(config, range));
    }
    bytes
}

// The ranges whose bytes a program may store into.
pub(crate) fn writable(alloc: Global, ranges: &[MemRange]) -> SmallVec<MemRange, MAX_ITEMS>
    requires { length ranges.now ≤ MAX_ITEMS }
    ensures ranges { result.items ≡ writable_ranges ranges.now }
    ensures few { length result.items ≤ MAX_ITEMS }
{
    let mut writable = SmallVec::new(alloc);
    for range in ranges {
        if range.access == Access::ReadWrite {
            writable.push_reserved(*range);
        }
    }
    writable
}
