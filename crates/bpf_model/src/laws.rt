//! Laws of runs.
ghost use Rattle.std.specs.Prelude.{◌≡◌, ℕ, ◌^◌, ◌<◌, List, length, All};
ghost use Rattle.cp_base.specs.declared.lists.MemRange.{MemRange};
ghost use Rattle.bpf_model.specs.Memory.{Memory, HoldsBytes, CoversByte, CoversForWriting, AreApart, windows_of, read_write_of};
ghost use Rattle.bpf_model.specs.Outcome.{outcome, EndFits};
ghost use Rattle.bpf_model.specs.Step.{Program};
ghost use Rattle.bpf_model.specs.Walk.{instruction_at};

/// The law of confinement: a run changes no byte outside its read-write ranges, however it ends.
pub fn runs_are_confined()
    ensures { (program : Program) (ranges : List MemRange) (memory : Memory) (p1 p2 budget ns offset : ℕ) →
        ¬ CoversForWriting ranges ns offset → (outcome program ranges memory p1 p2 budget).memory ns offset ≡ memory ns offset }
{}

/// The law of locality: a run depends on no byte outside its ranges. On two memories that agree on the
/// ranges it ends in the same way, and they agree there afterwards.
pub fn runs_are_local()
    ensures ending { (program : Program) (ranges : List MemRange) (a b : Memory) (p1 p2 budget : ℕ) →
        ((ns offset : ℕ) → CoversByte ranges ns offset → a ns offset ≡ b ns offset) →
        (outcome program ranges a p1 p2 budget).ending ≡ (outcome program ranges b p1 p2 budget).ending }
    ensures memory { (program : Program) (ranges : List MemRange) (a b : Memory) (p1 p2 budget : ℕ) →
        ((ns offset : ℕ) → CoversByte ranges ns offset → a ns offset ≡ b ns offset) →
        (ns offset : ℕ) → CoversByte ranges ns offset →
        (outcome program ranges a p1 p2 budget).memory ns offset ≡ (outcome program ranges b p1 p2 budget).memory ns offset }
{}

/// A run does the same wherever the bytes of its ranges lie: on two lists of ranges with the same bytes
/// and the same accesses, each without a shared byte, it ends in the same way and leaves the same bytes.
pub fn runs_depend_on_windows()
    ensures ending { (program : Program) (r s : List MemRange) (a b : Memory) (p1 p2 budget : ℕ) →
        AreApart r → AreApart s → windows_of a r ≡ windows_of b s → read_write_of r ≡ read_write_of s →
        (outcome program r a p1 p2 budget).ending ≡ (outcome program s b p1 p2 budget).ending }
    ensures windows { (program : Program) (r s : List MemRange) (a b : Memory) (p1 p2 budget : ℕ) →
        AreApart r → AreApart s → windows_of a r ≡ windows_of b s → read_write_of r ≡ read_write_of s →
        windows_of (outcome program r a p1 p2 budget).memory r ≡ windows_of (outcome program s b p1 p2 budget).memory s }
{}

/// A run keeps sizes. In a memory of bytes each byte is a byte afterwards. Where the code is bytes, the
/// parameters, the number of ranges and their lengths are of 64 bits too, an exit has a number of 64 bits,
/// and a fault a place of the code.
pub fn runs_keep_sizes()
    ensures bytes { (program : Program) (ranges : List MemRange) (memory : Memory) (p1 p2 budget : ℕ)
        → HoldsBytes memory →
        HoldsBytes (outcome program ranges memory p1 p2 budget).memory }
    ensures ending { (code : List ℕ) (ranges : List MemRange) (memory : Memory) (p1 p2 budget : ℕ) → HoldsBytes memory →
        All (λ b. b < 256) code → All (λ (range : MemRange). range.len < 2 ^ 64) ranges → length ranges < 2 ^ 64 → p1 < 2 ^ 64 → p2 < 2 ^ 64 →
        EndFits (length code) (outcome (instruction_at code) ranges memory p1 p2 budget).ending }
{}
