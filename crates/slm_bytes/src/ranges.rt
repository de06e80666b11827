// Which bytes of a memory namespace a command means.
ghost use Rattle.std.specs.Prelude.{◌≡◌, Some, None, IfOk, MatchResult};
ghost use Rattle.cp_base.specs.Checks.{byte_checks, first_failing};
ghost use Rattle.cp_base.specs.Configuration.{size_of};

use cp_base::{ByteRange, Config, SpaceId, Status};

/// The `len` bytes of a memory namespace from place `at` on, of which a command may move at most
/// `most`. The checks are those of the Subsystem Local Memory commands, in this order, over whole
/// numbers: no sum wraps.
///
/// # Errors
///
/// `BadNamespace` where there is no such memory namespace, `BadLength` where `len` is 0, `TooLong`
/// where it is above `most`, `OutOfRange` where a byte lies outside the namespace.
pub fn bytes_to_range(
    config: &Config,
    ns: u32,
    at: u64,
    len: u64,
    most: u64,
) -> Result<ByteRange, Status>
    ensures checked { MatchResult result
        (λ _. first_failing (byte_checks (size_of config.now (SpaceId.Mem ns)) at len most) ≡ None)
        (λ status. first_failing (byte_checks (size_of config.now (SpaceId.Mem ns)) at len most) ≡ Some status) }
    ensures range { IfOk result (λ range. range ≡ record { space = SpaceId.Mem ns; start = at; len = len }) }
{
    let space = SpaceId::Mem(ns);
    let Some(size) = config.size(space) else {
        return Err(Status::BadNamespace);
    };
    if len == 0 {
        return Err(Status::BadLength);
    }
    if len > most {
        return Err(Status::TooLong);
    }
    if at > size || len > size - at {
        return Err(Status::OutOfRange);
    }
    Ok(ByteRange::new(space, at, len).unwrap())
}
