// Executions of the programs that hosts load (Computational Programs Command Set 1.0, in outline).
ghost use Rattle.std.specs.Prelude.{◌≡◌, ℕ, ◌+◌, ◌<◌, ◌≤◌, List, pos, replicate, length, map, IfOk, OnOk, OnErr};
ghost use Rattle.cp_base.specs.Contents.{IsInside};
ghost use Rattle.cp_base.specs.Sharing.{range_region};
ghost use Rattle.cp_base.specs.declared.limits.TheConstants.{MAX_ITEMS, MAX_NAMESPACE};
ghost use Rattle.bpf_model.specs.Address.{stack_len};
ghost use Rattle.bpf_model.specs.Memory.{allows_writing, bytes_from, lengths_of, read_write_of, windows_of};
ghost use Rattle.bpf_model.specs.Walk.{instruction_at};
ghost use Rattle.bpf_decode.specs.Slots.{insn_at};
ghost use Rattle.confined_view.specs.Touched.{window_bytes};
ghost use Rattle.device_model.specs.Execution.{Loaded, memory_of, outcome_on, with_memory};
ghost use Rattle.seq_device.specs.Ranges.{AreAtHand, IsAtHand, with_window, with_windows};

use bpf_decode::Decoded;
use bpf_exec::{End, run};
use confined_view::{View, Window};
use cp_base::{Access, ByteRange, Bytes, MemRange, NoMemory, SpaceId};
use slm_bytes::Flat;
use std::alloc::Global;

// How many bytes the stack of a program has.
const STACK_LEN: u64 = 4096;

// Where the bytes of a range lie.
pub(crate) fn region(range: &MemRange) -> ByteRange
    requires some { 0 < range.now.len }
    requires short { range.now.at + range.now.len ≤ MAX_NAMESPACE }
    ensures { result ≡ range_region range.now }
{
    ByteRange::new(SpaceId::Mem(range.ns), range.at, range.len).unwrap()
}

// Whether a program may store into a range.
pub(crate) fn is_read_write(range: &MemRange) -> bool
    ensures { result ≡ allows_writing range.now.access }
{
    range.access == Access::ReadWrite
}

#[tactic(auto, using(crate::proofs::Windows::bytes_seen))]
// A copy of the bytes of a range, and whether a program may store into them.
fn window_of(flat: &Flat, range: &MemRange) -> Result<Window, NoMemory>
    requires { IsAtHand flat.now range.now }
    ensures bytes { IfOk result
        (λ window. window.bytes.items ≡ bytes_from (memory_of flat.now) range.now.ns range.now.at range.now.len) }
    ensures writable { IfOk result (λ window. window.writable ≡ allows_writing range.now.access) }
{
    Ok(Window {
        bytes: flat.piece(&region(range))?,
        writable: is_read_write(range),
    })
}

// What a program sees of ranges, with a stack of zeros.
fn view_of(alloc: Global, flat: &Flat, ranges: &[MemRange]) -> Result<View, NoMemory>
    requires few { length ranges.now ≤ MAX_ITEMS }
    requires at_hand { AreAtHand flat.now ranges.now }
    ensures windows { IfOk result (λ view. windows_of (memory_of flat.now) ranges.now ≡ view.windows) }
    ensures writable { IfOk result (λ view. read_write_of ranges.now ≡ view.writable) }
    ensures stack { IfOk result (λ view. view.stack ≡ replicate stack_len 0) }
{
    let stack = Bytes::filled(alloc, STACK_LEN, 0)?;
    let mut windows = Vec::new(alloc);
    for range in ranges {
        windows.push(window_of(flat, range)?)?;
    }
    Ok(View::new(windows, stack))
}

// Puts the bytes of a window back, where a program may store into its range.
fn put_window(flat: &mut Flat, range: &MemRange, window: &Window)
    requires at_hand { IsAtHand flat.old range.now }
    requires length { length window.now.bytes.items ≡ range.now.len }
    ensures { flat.new ≡ with_window flat.old range.now window.now.bytes.items }
{
    if is_read_write(range) {
        flat.patch(&region(range), &window.bytes);
    }
}

// Puts the bytes of windows back, where a program may store into their ranges.
fn put_windows(flat: &mut Flat, ranges: &[MemRange], windows: &[Window])
    requires at_hand { AreAtHand flat.old ranges.now }
    requires lengths { map length (window_bytes windows.now) ≡ lengths_of ranges.now }
    ensures { flat.new ≡ with_windows flat.old ranges.now (window_bytes windows.now) }
{
    for (index, range) in ranges.iter().enumerate() {
        put_window(flat, range, &windows[index]);
    }
}

/// Executes the program of a host on ranges, and tells how it ends. What it has stored into them stays, however
/// it ends.
///
/// # Errors
///
/// `NoMemory` where there is none for the windows and the stack. Then nothing changes.
pub(crate) fn run_loaded(
    alloc: Global,
    flat: &mut Flat,
    ranges: &[MemRange],
    program: &Decoded,
    p1: u64,
    p2: u64,
    budget: u64,
) -> Result<End, NoMemory>
    requires budget { 1 ≤ budget }
    requires few { length ranges.now ≤ MAX_ITEMS }
    requires at_hand { AreAtHand flat.old ranges.now }
    ensures ending { (code : List ℕ) → ((place : ℕ) → insn_at program.now (pos place) ≡ instruction_at code place) →
        IfOk result (λ ending. ending ≡ (outcome_on (Loaded code) ranges.now (memory_of flat.old) p1 p2 budget).ending) }
    ensures left { (code : List ℕ) → ((place : ℕ) → insn_at program.now (pos place) ≡ instruction_at code place) →
        OnOk result (flat.new ≡ with_memory flat.old (outcome_on (Loaded code) ranges.now (memory_of flat.old) p1 p2 budget).memory) }
    ensures unchanged { OnErr result (flat.new ≡ flat.old) }
{
    let mut view = view_of(alloc, flat, ranges)?;
    let end = run(program, &mut view, p1, p2, budget);
    let (windows, _) = view.into_parts();
    put_windows(flat, ranges, &windows);
    Ok(end)
}
