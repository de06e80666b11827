//! Laws of texts and lines, and worked examples. The functions do nothing; their clauses are the laws.
ghost use Rattle.std.specs.Prelude.{◌≡◌, ◌⊎◌, true, false, ℕ, ◌≤◌, pos, negsuc, List, length, codes};
ghost use Rattle.cp_base.specs.declared.limits.TheConstants.{MAX_PROGRAM};
ghost use Rattle.cp_text.specs.HexText.{AreBytes};
ghost use Rattle.bpf_model.specs.Encoding.{IsAllowed};
ghost use Rattle.bpf_model.specs.Walk.{IsWellFormed, is_well_formed};
ghost use Rattle.bpf_asm.specs.Line.{insn_line};
ghost use Rattle.bpf_asm.specs.Text.{IsCodeOf, IsFaultyAt, text_of_code};

use bpf_isa::{AtomicOp, Insn, JumpOp, Size, Width};

/// The laws of texts: well formed code has a text without a faulty line, and other code another text; a text
/// has one first faulty line at most, and instructions of the profile have lines of their own.
///
/// So what `assemble` gives of the text that `disassemble` gives of code is this code, and what
/// `disassemble` gives of the code that `assemble` gives of a text is this text.
pub fn assembly_laws()
    ensures one_code { (a b : List ℕ) → AreBytes a → AreBytes b → IsWellFormed a → IsWellFormed b
        → text_of_code a ≡ text_of_code b → a ≡ b }
    ensures no_fault { (code : List ℕ) (line : ℕ) → AreBytes code → IsWellFormed code → length code ≤ MAX_PROGRAM
        → IsFaultyAt (text_of_code code) line → ⊥ }
    ensures one_fault { (text : List ℕ) (m n : ℕ) → IsFaultyAt text m → IsFaultyAt text n → m ≡ n }
    ensures one_line { (i j : Insn) → IsAllowed i → IsAllowed j → insn_line i ≡ insn_line j → i ≡ j }
{}

/// The law of one answer. A text is the text of one program, or it has one first faulty line, and never both.
/// Code of bytes that is no longer than a program's is the code of one text, or it is not well formed, which
/// its bad place tells (`bad_place`), and is the code of none.
pub fn one_answer()
    ensures text_is_answered { (text : List ℕ) →
        ((code : List ℕ) × IsCodeOf text code) ⊎ ((line : ℕ) × IsFaultyAt text line) }
    ensures one_code { (text a b : List ℕ) → IsCodeOf text a → IsCodeOf text b → a ≡ b }
    ensures one_fault { (text : List ℕ) (m n : ℕ) → IsFaultyAt text m → IsFaultyAt text n → m ≡ n }
    ensures code_or_fault { (text code : List ℕ) (line : ℕ) → IsCodeOf text code → IsFaultyAt text line → ⊥ }
    ensures code_is_answered { (code : List ℕ) → AreBytes code → length code ≤ MAX_PROGRAM →
        ((text : List ℕ) × IsCodeOf text code) ⊎ (is_well_formed code ≡ false) }
    ensures one_text { (code s t : List ℕ) → IsCodeOf s code → IsCodeOf t code → s ≡ t }
    ensures text_or_bad_place { (text code : List ℕ) → IsCodeOf text code → is_well_formed code ≡ false → ⊥ }
{}

/// Lines that were written by hand.
pub fn lines_by_example()
    ensures move_of_number { insn_line (Insn.MovImm true 0 (pos 7)) ≡ codes "mov64 r0 7" }
    ensures move_of_register { insn_line (Insn.MovReg false 9 10) ≡ codes "mov32 r9 r10" }
    ensures wide_load { insn_line (Insn.LoadImm 1 4294967296) ≡ codes "lddw r1 4294967296" }
    ensures load { insn_line (Insn.Load Size.B 0 1 (negsuc 0)) ≡ codes "ldxb r0 r1 -1" }
    ensures store { insn_line (Insn.StoreImm Size.D 10 (negsuc 7) (pos 0)) ≡ codes "std r10 -8 0" }
    ensures branch { insn_line (Insn.BranchImm JumpOp.Jeq false 0 (negsuc 1) (negsuc 4)) ≡ codes "jeq32 r0 -5 -2" }
    ensures fetch { insn_line (Insn.AtomicFetch AtomicOp.Add Size.D 1 2 (pos 0)) ≡ codes "afaddd r1 0 r2" }
    ensures byte_swap { insn_line (Insn.ToBig Width.Bits16 3) ≡ codes "be r3 16" }
    ensures helper { insn_line Insn.CallHelper ≡ codes "call 1" }
    ensures exit { insn_line Insn.Exit ≡ codes "exit" }
{}
