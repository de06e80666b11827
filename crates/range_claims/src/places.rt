// One number for each byte of each namespace.
ghost use Rattle.std.specs.Prelude.{◌≡◌, ◌+◌, ◌^◌, ◌<◌, ◌≤◌};
ghost use Rattle.cp_base.specs.declared.limits.TheConstants.{MAX_NAMESPACE};
ghost use Rattle.range_claims.specs.Places.{base_of, end_of, start_of};

use cp_base::{ByteRange, SpaceId};

/// How far the first bytes of two namespaces are apart at least: more than a namespace has bytes, so that no byte of
/// one is next to a byte of another.
pub(crate) const STRIDE: u64 = 33_554_432;

// The place of the first byte of a namespace.
pub(crate) fn base(space: SpaceId) -> u64
    ensures value { result ≡ base_of space }
    ensures bounded { result < 2 ^ 59 }
{
    match space {
        SpaceId::Nvm(n) => u64::from(n) * 2 * STRIDE,
        SpaceId::Mem(n) => (u64::from(n) * 2 + 1) * STRIDE,
    }
}

// The place of the first byte of a range.
pub(crate) fn start(range: &ByteRange) -> u64
    ensures value { result ≡ start_of range.now }
    ensures bounded { result < 2 ^ 60 }
{
    base(range.space()) + range.start()
}

// The place behind the last byte of a range.
pub(crate) fn end(range: &ByteRange) -> u64
    ensures value { result ≡ end_of range.now }
    ensures behind { start_of range.now < result }
    ensures last { result ≤ base_of range.now.space + MAX_NAMESPACE }
    ensures bounded { result < 2 ^ 60 }
{
    base(range.space()) + range.end()
}
