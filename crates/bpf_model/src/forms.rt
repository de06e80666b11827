//! The law of instruction forms and encodings, and worked examples.
ghost use Rattle.std.specs.Prelude.{◌≡◌, true, false, ℕ, ◌*◌, ◌^◌, ◌<◌, pos, negsuc, List, [], ◌∷◌, ◌++◌, All};
ghost use Rattle.bpf_model.specs.Form.{form};
ghost use Rattle.bpf_model.specs.Encoding.{encoding, IsAllowed, IsEncodedAt};

use bpf_isa::{AluOp, AtomicOp, Insn, JumpOp, Size, Width};

/// The law of forms: an instruction stands at a place of code exactly where it is an allowed one and the
/// bytes there are its encoding.
///
/// So the table of forms and the encodings, which are written apart, say the same.
pub fn forms_are_encodings()
    ensures form_is_encoded { (code : List ℕ) (place : ℕ) (insn : Insn) → All (λ b. b < 256) code →
        form code place ≡ Some insn → IsAllowed insn × IsEncodedAt code place insn }
    ensures encoded_is_form { (code : List ℕ) (place : ℕ) (insn : Insn) →
        IsAllowed insn → IsEncodedAt code place insn → form code place ≡ Some insn }
{}

/// Worked examples of forms and encodings.
pub fn example_forms()
    // mov64 r0 -1
    ensures move_of_minus_one { form (0xb7 ∷ 0 ∷ 0 ∷ 0 ∷ 0xff ∷ 0xff ∷ 0xff ∷ 0xff ∷ []) 0
        ≡ Some (Insn.MovImm true 0 (negsuc 0)) }
    // mov64 r10 7
    ensures frame_pointer_is_read_only { form (0xb7 ∷ 0x0a ∷ 0 ∷ 0 ∷ 7 ∷ 0 ∷ 0 ∷ 0 ∷ []) 0 ≡ None }
    // sdiv64 r0 -1
    ensures signed_division { form (0x37 ∷ 0 ∷ 1 ∷ 0 ∷ 0xff ∷ 0xff ∷ 0xff ∷ 0xff ∷ []) 0
        ≡ Some (Insn.DivImm AluOp.Sdiv true 0 (negsuc 0)) }
    // be r0 16
    ensures byte_swap { form (0xdc ∷ 0 ∷ 0 ∷ 0 ∷ 0x10 ∷ 0 ∷ 0 ∷ 0 ∷ []) 0 ≡ Some (Insn.ToBig Width.Bits16 0) }
    // lddw r1 4294967296
    ensures wide_load { form (0x18 ∷ 1 ∷ 0 ∷ 0 ∷ 0 ∷ 0 ∷ 0 ∷ 0 ∷ 0 ∷ 0 ∷ 0 ∷ 0 ∷ 1 ∷ 0 ∷ 0 ∷ 0 ∷ []) 0
        ≡ Some (Insn.LoadImm 1 (2 ^ 32)) }
    // the same with an opcode in its second unit
    ensures wide_load_of_two_opcodes { form (0x18 ∷ 0 ∷ 0 ∷ 0 ∷ 0 ∷ 0 ∷ 0 ∷ 0 ∷ 1 ∷ 0 ∷ 0 ∷ 0 ∷ 0 ∷ 0 ∷ 0 ∷ 0 ∷ []) 0
        ≡ None }
    // ldxb r0 r1 -1
    ensures load { form (0x71 ∷ 0x10 ∷ 0xff ∷ 0xff ∷ 0 ∷ 0 ∷ 0 ∷ 0 ∷ []) 0 ≡ Some (Insn.Load Size.B 0 1 (negsuc 0)) }
    // afaddd r1 0 r2
    ensures fetch { form (0xdb ∷ 0x21 ∷ 0 ∷ 0 ∷ 1 ∷ 0 ∷ 0 ∷ 0 ∷ []) 0
        ≡ Some (Insn.AtomicFetch AtomicOp.Add Size.D 1 2 (pos 0)) }
    // callp -3, behind another instruction
    ensures local_call { form (0x95 ∷ 0 ∷ 0 ∷ 0 ∷ 0 ∷ 0 ∷ 0 ∷ 0 ∷ 0x85 ∷ 0x10 ∷ 0 ∷ 0 ∷ 0xfd ∷ 0xff ∷ 0xff ∷ 0xff ∷ []) 1
        ≡ Some (Insn.CallLocal (negsuc 2)) }
    // jeq32 r0 -5 -2
    ensures branch { encoding (Insn.BranchImm JumpOp.Jeq false 0 (negsuc 1) (negsuc 4))
        ≡ 0x16 ∷ 0 ∷ 0xfe ∷ 0xff ∷ 0xfb ∷ 0xff ∷ 0xff ∷ 0xff ∷ [] }
    ensures unknown { form (0xff ∷ 0 ∷ 0 ∷ 0 ∷ 0 ∷ 0 ∷ 0 ∷ 0 ∷ []) 0 ≡ None }
    ensures cut { form (0xb7 ∷ []) 0 ≡ None }
{}
