//! Laws of the walk over code, and worked examples.
ghost use Rattle.std.specs.Prelude.{◌≡◌, ◌≢◌, true, false, ℕ, suc, ◌<◌, ◌↔◌, pos, List, [], ◌∷◌, ◌++◌, length, All, IsTrue, IsSome};
ghost use Rattle.bpf_model.specs.Form.{form};
ghost use Rattle.bpf_model.specs.Walk.{reaches, bad_place, IsStart, IsWellFormed, starts_instruction, is_well_formed, instruction_at};

use bpf_isa::{Insn, Size};

/// The law of the walk: it comes to the bad place, which is the only place of the walk without a form,
/// and code is well formed exactly where it is not empty and each start has a form.
pub fn code_ends_at_the_bad_place()
    ensures bad_place_is_reached { (code : List ℕ) → IsTrue (reaches (suc (length code)) code 0 (bad_place code)) }
    ensures bad_place_has_no_form { (code : List ℕ) → form code (bad_place code) ≡ None }
    ensures others_have_forms { (code : List ℕ) (place : ℕ) →
        IsTrue (reaches (suc (length code)) code 0 place) → place ≢ bad_place code → IsSome (form code place) }
    ensures well_formed { (code : List ℕ) → All (λ b. b < 256) code →
        IsWellFormed code ↔ ((0 < length code) × ((place : ℕ) → IsStart code place → IsSome (form code place))) }
{}

/// Worked examples of starts, well formed code and bad places.
pub fn example_walks()
    // the destination 11
    ensures register_11 { bad_place (0xb7 ∷ 0x0b ∷ 0 ∷ 0 ∷ 0 ∷ 0 ∷ 0 ∷ 0 ∷ []) ≡ 0 }
    ensures one_byte { bad_place (0xb7 ∷ []) ≡ 0 }
    ensures second_opcode { bad_place (0x18 ∷ 0 ∷ 0 ∷ 0 ∷ 0 ∷ 0 ∷ 0 ∷ 0 ∷ 1 ∷ 0 ∷ 0 ∷ 0 ∷ 0 ∷ 0 ∷ 0 ∷ 0 ∷ []) ≡ 0 }
    ensures cut_wide_load { bad_place (0xb7 ∷ 0 ∷ 0 ∷ 0 ∷ 1 ∷ 0 ∷ 0 ∷ 0 ∷ 0x18 ∷ 0 ∷ 0 ∷ 0 ∷ 0 ∷ 0 ∷ 0 ∷ 0 ∷ []) ≡ 1 }
    ensures empty { bad_place [] ≡ 0 }
    ensures empty_is_not_well_formed { is_well_formed [] ≡ false }
    ensures cut_is_not_well_formed { is_well_formed (0x95 ∷ 0 ∷ 0 ∷ 0 ∷ 0 ∷ 0 ∷ 0 ∷ 0 ∷ 0xb7 ∷ []) ≡ false }
    ensures exit_is_well_formed { is_well_formed (0x95 ∷ 0 ∷ 0 ∷ 0 ∷ 0 ∷ 0 ∷ 0 ∷ 0 ∷ []) ≡ true }
    ensures end_is_no_start { starts_instruction (0x95 ∷ 0 ∷ 0 ∷ 0 ∷ 0 ∷ 0 ∷ 0 ∷ 0 ∷ []) 1 ≡ false }
    // lddw r1 4294967296, stb r1 0 85
    ensures inside_a_wide_load { instruction_at (0x18 ∷ 1 ∷ 0 ∷ 0 ∷ 0 ∷ 0 ∷ 0 ∷ 0 ∷ 0 ∷ 0 ∷ 0 ∷ 0 ∷ 1 ∷ 0 ∷ 0 ∷ 0
        ∷ 0x72 ∷ 1 ∷ 0 ∷ 0 ∷ 0x55 ∷ 0 ∷ 0 ∷ 0 ∷ []) 1 ≡ None }
    ensures behind_a_wide_load { instruction_at (0x18 ∷ 1 ∷ 0 ∷ 0 ∷ 0 ∷ 0 ∷ 0 ∷ 0 ∷ 0 ∷ 0 ∷ 0 ∷ 0 ∷ 1 ∷ 0 ∷ 0 ∷ 0
        ∷ 0x72 ∷ 1 ∷ 0 ∷ 0 ∷ 0x55 ∷ 0 ∷ 0 ∷ 0 ∷ []) 2 ≡ Some (Insn.StoreImm Size.B 1 (pos 0) (pos 85)) }
{}
