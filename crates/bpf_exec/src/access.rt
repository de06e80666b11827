//! Loads, stores and atomic operations.
ghost use Rattle.std.specs.Prelude.{◌≡◌, ℕ, ◌*◌, IsTrue, IfNone, option_map, slice_index};
ghost use Rattle.bpf_isa.specs.Size.{byte_count};
ghost use Rattle.bpf_model.specs.Encoding.{is_atomic_size};
ghost use Rattle.bpf_model.specs.Machine.{Machine, with_register};
ghost use Rattle.bpf_model.specs.Step.{accessed, atomic_access, load_number, next, store_number};
ghost use Rattle.bpf_model.specs.Value.{sign_extended};
ghost use Rattle.bpf_exec.specs.Seen.{machine_of, effect_seen, LeavesAtEnd, KeepsWindows};

use crate::processor::{Next, Processor};
use bpf_alu::{alu64, atomic_new};
use bpf_isa::{AluOp, AtomicOp, End, Reg, Size};
use confined_view::View;

/// A number of a size, sign-extended to 64 bits.
#[inline(always)]
fn extended(size: Size, number: u64) -> u64
    ensures { result ≡ sign_extended (8 * byte_count size) 64 number }
{
    match size {
        Size::B => alu64(AluOp::Movsx8, 0, number),
        Size::H => alu64(AluOp::Movsx16, 0, number),
        Size::W => alu64(AluOp::Movsx32, 0, number),
        Size::D => number,
    }
}

impl Processor {
    /// A load of a number, with zeros above it.
    #[inline(always)]
    #[tactic(auto, using(crate::proofs::Windows::load_done, crate::proofs::Windows::load_failed))]
    pub fn load(&mut self, view: &View, size: Size, dst: Reg, address: u64) -> Next
        ensures effect { load_number (machine_of self.old view.now) address size dst (λ n. n)
            ≡ effect_seen result self.new view.now }
        ensures place { self.new.place ≡ self.old.place }
    {
        let Some(number) = view.load(address, size) else {
            return Next::Ended(End::BadAccess(self.place));
        };
        self.set(dst, number);
        Next::Behind
    }

    /// A load of a number, sign-extended.
    #[inline(always)]
    #[tactic(auto, using(crate::proofs::Windows::load_done, crate::proofs::Windows::load_failed))]
    pub fn load_signed(&mut self, view: &View, size: Size, dst: Reg, address: u64) -> Next
        ensures effect { load_number (machine_of self.old view.now) address size dst (λ n. sign_extended (8 * byte_count size) 64 n) ≡ effect_seen result self.new view.now }
        ensures place { self.new.place ≡ self.old.place }
    {
        let Some(number) = view.load(address, size) else {
            return Next::Ended(End::BadAccess(self.place));
        };
        self.set(dst, extended(size, number));
        Next::Behind
    }

    /// A store of the low bytes of a value.
    #[inline(always)]
    #[tactic(auto, using(crate::proofs::Windows::store_done, crate::proofs::Windows::store_failed))]
    pub fn store(&self, view: &mut View, size: Size, address: u64, value: u64) -> Next
        ensures effect { store_number (machine_of self.now view.old) address size value
            ≡ effect_seen result self.now view.new }
        ensures at_end { LeavesAtEnd result view.old view.new }
        ensures windows { KeepsWindows view.old view.new }
    {
        match view.store(address, size, value) {
            Some(()) => Next::Behind,
            None => Next::Ended(End::BadAccess(self.place)),
        }
    }

    /// An atomic operation on memory, which answers the old value. `None` where the access lies wholly
    /// neither in a read-write range nor in the stack, also where the operation would store the old value.
    #[inline(always)]
    fn update(
        &self,
        view: &mut View,
        op: AtomicOp,
        size: Size,
        address: u64,
        source: u64,
    ) -> Option<u64>
        requires { IsTrue (is_atomic_size size) }
        ensures effect { (fetch : ℕ → Machine → Machine) → let m = machine_of self.now view.new in
            atomic_access (machine_of self.now view.old) op address size source fetch ≡ accessed m (option_map (λ old. next (fetch old m)) result) }
        ensures unchanged { IfNone result (view.new ≡ view.old) }
        ensures windows { KeepsWindows view.old view.new }
    {
        let Some(old) = view.load(address, size) else {
            return None;
        };
        let new = atomic_new(op, size, old, source, self.registers[0]);
        let Some(()) = view.store(address, size, new) else {
            return None;
        };
        Some(old)
    }

    /// An atomic operation that keeps all registers.
    #[inline(always)]
    pub fn atomic(&self, view: &mut View, op: AtomicOp, size: Size, address: u64, src: Reg) -> Next
        requires { IsTrue (is_atomic_size size) }
        ensures effect { atomic_access (machine_of self.now view.old) op address size (slice_index self.now.registers src) (λ old m. m) ≡ effect_seen result self.now view.new }
        ensures at_end { LeavesAtEnd result view.old view.new }
        ensures windows { KeepsWindows view.old view.new }
    {
        match self.update(view, op, size, address, self.get(src)) {
            Some(_) => Next::Behind,
            None => Next::Ended(End::BadAccess(self.place)),
        }
    }

    /// An atomic operation that puts the old value into its source.
    #[inline(always)]
    pub fn fetch(
        &mut self,
        view: &mut View,
        op: AtomicOp,
        size: Size,
        address: u64,
        src: Reg,
    ) -> Next
        requires { IsTrue (is_atomic_size size) }
        ensures effect { atomic_access (machine_of self.old view.old) op address size
            (slice_index self.old.registers src) (λ old m. with_register m src old)
            ≡ effect_seen result self.new view.new }
        ensures place { self.new.place ≡ self.old.place }
        ensures at_end { LeavesAtEnd result view.old view.new }
        ensures windows { KeepsWindows view.old view.new }
    {
        let Some(old) = self.update(view, op, size, address, self.get(src)) else {
            return Next::Ended(End::BadAccess(self.place));
        };
        self.set(src, old);
        Next::Behind
    }

    /// A compare and exchange, which puts the old value into R0.
    #[inline(always)]
    pub fn exchange(&mut self, view: &mut View, size: Size, address: u64, src: Reg) -> Next
        requires { IsTrue (is_atomic_size size) }
        ensures effect { atomic_access (machine_of self.old view.old) AtomicOp.Cmpxchg address size
            (slice_index self.old.registers src) (λ old m. with_register m 0 old)
            ≡ effect_seen result self.new view.new }
        ensures place { self.new.place ≡ self.old.place }
        ensures at_end { LeavesAtEnd result view.old view.new }
        ensures windows { KeepsWindows view.old view.new }
    {
        let Some(old) = self.update(view, AtomicOp::Cmpxchg, size, address, self.get(src)) else {
            return Next::Ended(End::BadAccess(self.place));
        };
        self.registers[0] = old;
        Next::Behind
    }
}
