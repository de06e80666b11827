// Laws of scripts, their plans and their histories. The functions do nothing; their clauses are the laws.
ghost use Rattle.std.specs.Prelude.{◌≡◌, Ok, Err, All};
ghost use Rattle.script_line.specs.Sized.{AreSized};
ghost use Rattle.script_cmds.specs.Kept.{KeepsOrderAndLimits};
ghost use Rattle.script_cmds.specs.Text.{lines_of};
ghost use Rattle.script_cmds.specs.declared.script.Script.{Script};
ghost use Rattle.history_model.specs.Legal.{IsLegal};
ghost use Rattle.history_model.specs.Plan.{PlanFault, plan_of};
ghost use Rattle.history_model.specs.Sized.{IsSizedEntry};
ghost use Rattle.history_model.specs.Text.{history_text};

/// The history of a script whose lines are sized, in their places and within their limits: whatever its
/// programs do, its numbers have 64 bits and what was read are bytes, and its text tells it.
pub fn scripts_have_sized_histories()
    ensures sized { (script : Script) (plan : _) (history : _) → AreSized (lines_of script) → KeepsOrderAndLimits script
        → plan_of script ≡ Ok plan → IsLegal script.config plan history → All IsSizedEntry history }
    ensures told { (script : Script) (plan : _) (one other : _) → AreSized (lines_of script)
        → KeepsOrderAndLimits script
        → plan_of script ≡ Ok plan → IsLegal script.config plan one → IsLegal script.config plan other
        → history_text script.config script.shows one ≡ history_text script.config script.shows other → one ≡ other }
{}

/// The lines of a script tell its first breach of a rule of queues: scripts with the same lines have the
/// same fault, or a plan each.
pub fn lines_tell_the_fault()
    ensures one_fault { (a b : Script) (f g : PlanFault) → lines_of a ≡ lines_of b → plan_of a ≡ Err f
        → plan_of b ≡ Err g → f ≡ g }
    ensures plan_or_fault { (a b : Script) (plan : _) (f : PlanFault) → lines_of a ≡ lines_of b → plan_of a ≡ Ok plan
        → plan_of b ≡ Err f → ⊥ }
{}
