// Ranges of bytes whose numbers can pass 64 bits, and which need not lie in a namespace.
ghost use Rattle.std.specs.Prelude.{◌≡◌, ◌*◌, ◌^◌, ◌<◌, is_none, IfSome};
ghost use Rattle.cp_base.specs.Sharing.{is_nowhere, is_outside, source_region};

use cp_base::{ByteRange, Config, CopySource, SpaceId};
use std::marker::Model;

// So many bytes of a namespace from a place on, in whole numbers.
#[derive(Clone, Copy)]
pub(crate) struct WideRange {
    space: SpaceId,
    start: u128,
    len: u128,
}

impl Model for WideRange {
    ghost use Rattle.std.specs.Prelude.{◌^◌, ◌<◌};
    ghost use Rattle.cp_base.specs.Region.{Region};

    ghost Value = { Region };

    ghost view = { λ r. record { space = r.space; start = r.start; len = r.len } };

    ghost invariant = { λ r. (r.start < 2 ^ 96) × (r.len < 2 ^ 101) };

    ghost inverse = { λ r. record { space = r.space; start = r.start; len = r.len } };
}

impl WideRange {
    // The bytes of a namespace from a place on.
    pub(crate) fn new(space: SpaceId, start: u128, len: u128) -> WideRange
        requires start { start < 2 ^ 96 }
        requires len { len < 2 ^ 101 }
        ensures { result ≡ record { space = space; start = start; len = len } }
    {
        WideRange { space, start, len }
    }

    // Where a source of a copy lies, in bytes.
    pub(crate) fn of(config: &Config, source: &CopySource) -> WideRange
        ensures value { result ≡ source_region config.now source.now }
        ensures bounded { result.len < 2 ^ 96 }
    {
        match source {
            CopySource::Nvm { ns, lba, count } => {
                let block = u128::from(config.block());
                WideRange {
                    space: SpaceId::Nvm(*ns),
                    start: u128::from(*lba) * block,
                    len: u128::from(*count) * block,
                }
            }
            CopySource::Mem { ns, at, len } => WideRange {
                space: SpaceId::Mem(*ns),
                start: u128::from(*at),
                len: u128::from(*len),
            },
        }
    }

    // How many bytes.
    pub(crate) fn len(&self) -> u128
        ensures { result ≡ self.now.len }
    {
        self.len
    }

    // Whether there is no such namespace.
    pub(crate) fn is_nowhere(&self, config: &Config) -> bool
        ensures { result ≡ is_nowhere config.now self.now }
    {
        config.size(self.space).is_none()
    }

    // The range in numbers of 64 bits. `None` where a byte lies outside the namespace.
    pub(crate) fn inside(&self, config: &Config) -> Option<ByteRange>
        requires { 0 < self.now.len }
        ensures outside { is_none result ≡ is_outside config.now self.now }
        ensures value { IfSome result (λ range. range ≡ self.now) }
    {
        let size = config.size(self.space).unwrap_or(0);
        if self.start + self.len > u128::from(size) {
            return None;
        }
        ByteRange::new(self.space, self.start as u64, self.len as u64)
    }
}
