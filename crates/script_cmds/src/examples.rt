// Worked examples of the definitions. The function does nothing: what it ensures is what is proved.
ghost use Rattle.std.specs.Prelude.{◌≡◌, ◌++◌, ◌∷◌, [], Some, None, codes};
ghost use Rattle.script_cmds.specs.Fault.{first_fault, fault_at};
ghost use Rattle.script_line.specs.declared.fault.TextCause.TheVariants as cause;

/// Texts and their first faults.
pub fn faults_by_example()
    ensures empty { first_fault [] ≡ fault_at 1 cause.Order }
    ensures no_newline { first_fault (codes "nvmecp 1 block=512 depth=16 budget=1") ≡ fault_at 1 cause.Word }
    ensures header { first_fault (codes "nvmecp 1 block=512 depth=16 budget=1" ++ 10 ∷ []) ≡ None }
    ensures block { first_fault (codes "nvmecp 1 block=513 depth=16 budget=1" ++ 10 ∷ []) ≡ fault_at 1 cause.Limit }
    ensures leading_zero { first_fault (codes "nvmecp 1 block=0512 depth=16 budget=1" ++ 10 ∷ [])
        ≡ fault_at 1 cause.Number }
    ensures version { first_fault (codes "nvmecp 2 block=512 depth=16 budget=1" ++ 10 ∷ []) ≡ fault_at 1 cause.Field }
    ensures empty_line { first_fault (codes "nvmecp 1 block=512 depth=16 budget=1" ++ 10 ∷ 10 ∷ [])
        ≡ fault_at 2 cause.Word }
    ensures two_causes { first_fault (codes "nvmecp 1 block=0512 depth=16" ++ 10 ∷ []) ≡ fault_at 1 cause.Field }
{}
