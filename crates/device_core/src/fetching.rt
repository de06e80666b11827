// Bytes fetched from home for a command, and given back where there is no memory for all of them.
ghost use Rattle.std.specs.Prelude.{◌≡◌, ◌<◌, ◌≤◌, [], false, IfOk, OnOk, OnErr, drop, length, take};
ghost use Rattle.std.specs.List.{AllByRecursion};
ghost use Rattle.cp_base.specs.Sharing.{any_overlap};
ghost use Rattle.extents.specs.Homes.{IsAtHome};
ghost use Rattle.job_run.specs.Held.{IsRange};
ghost use Rattle.device_core.specs.Portions.{AreCopied, AreFilled, AreTaken, CanBeTaken, IsReadIf, filled_at, portion_ranges, written_ranges};

use crate::portions::Portion;
use cp_base::{ByteRange, Bytes, MAX_NAMESPACE, NoMemory, Piece};
use extents::Extents;
use std::alloc::Global;

// The bytes of a portion, where it is only read; and none, where it may be written.
fn read_bytes(alloc: Global, store: &Extents, portion: &Portion) -> Result<Bytes, NoMemory>
    requires { IsAtHome store.now portion.now.range }
    ensures { IfOk result
        (λ bytes. IsReadIf portion.now.written store.now portion.now (record { range = portion.now.range; bytes = bytes })) }
{
    if portion.written {
        return Ok(Bytes::new(alloc));
    }
    store.copy(&portion.range)
}

// A piece of a range and its bytes.
fn piece(range: ByteRange, bytes: Bytes) -> Piece
    ensures piece { result ≡ record { range = range; bytes = bytes } }
    ensures range { IsRange result.range }
{
    prove!(range.len() > 0 && range.end() <= MAX_NAMESPACE);
    Piece { range, bytes }
}

/// A piece for each portion, with the bytes of those that are only read.
pub(crate) fn copy_read(
    alloc: Global,
    store: &Extents,
    portions: &[Portion],
) -> Result<Vec<Piece>, NoMemory>
    requires { AllByRecursion (IsAtHome store.now) (portion_ranges portions.now) }
    ensures { IfOk result (λ pieces. AreCopied store.now portions.now pieces.items) }
{
    let mut pieces = Vec::with_capacity(alloc, portions.len())?;
    for portion in portions {
        let bytes = read_bytes(alloc, store, portion)?;
        pieces.push(piece(portion.range, bytes))?;
    }
    Ok(pieces)
}

// Puts bytes into a piece.
fn fill(pieces: &mut Vec<Piece>, index: usize, bytes: Bytes)
    requires { index < length pieces.old.items }
    ensures { pieces.new.items ≡ filled_at pieces.old.items index bytes }
{
    pieces[index].bytes = bytes;
}

/// Takes the bytes of the portions from an index on that may be written out of the extents, into their pieces.
///
/// # Errors
///
/// `NoMemory` where there is no memory to cut one of them out. Then those that were taken are put back.
pub(crate) fn take_written(
    store: &mut Extents,
    portions: &[Portion],
    pieces: &mut Vec<Piece>,
    index: usize,
) -> Result<(), NoMemory>
    requires inside { index ≤ length portions.now }
    requires pieces { length pieces.old.items ≡ length portions.now }
    requires ready { AllByRecursion (CanBeTaken store.old) (written_ranges (drop index portions.now)) }
    requires apart { any_overlap (written_ranges (drop index portions.now)) ≡ false }
    ensures taken { OnOk result (AreTaken store.old store.new (written_ranges (drop index portions.now))) }
    ensures filled { OnOk result
        (AreFilled store.old (drop index portions.now) (drop index pieces.old.items) (drop index pieces.new.items)) }
    ensures earlier { OnOk result (take index pieces.new.items ≡ take index pieces.old.items) }
    ensures length { length pieces.new.items ≡ length pieces.old.items }
    ensures unchanged { OnErr result (AreTaken store.old store.new []) }
{
    if index >= portions.len() {
        return Ok(());
    }
    let portion = portions[index];
    if !portion.written {
        return take_written(store, portions, pieces, index + 1);
    }
    let bytes = store.take(&portion.range)?;
    if let Err(refused) = take_written(store, portions, pieces, index + 1) {
        store.put(&portion.range, bytes);
        return Err(refused);
    }
    fill(pieces, index, bytes);
    Ok(())
}
