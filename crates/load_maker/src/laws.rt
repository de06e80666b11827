// Laws of loads. The function does nothing; its clauses are the laws.
ghost use Rattle.std.specs.Prelude.{◌≡◌, ℕ, ◌+◌, ◌*◌, ◌≤◌, None, Err};
ghost use Rattle.cp_line.specs.declared.limits.TheConstants.{MAX_MADE};
ghost use Rattle.history_model.specs.Plan.{PlanFault, plan_of};
ghost use Rattle.script_cmds.specs.Fault.{first_fault, newlines};
ghost use Rattle.script_cmds.specs.Text.{lines_of, script_text};
ghost use Rattle.script_cmds.specs.declared.script.Script.{Script};
ghost use Rattle.script_line.specs.Sized.{AreSized};
ghost use Rattle.load_maker.specs.Load.{load_lines, load_text};

/// The text of a load is accepted: no line of it is faulty, and a script that has this text breaks no rule of
/// queues. Its lines say what lines can, and are few.
pub fn load_laws()
    ensures accepted { (seed commands : ℕ) → commands ≤ MAX_MADE → first_fault (load_text seed commands) ≡ None }
    ensures planned { (seed commands : ℕ) (script : Script) (fault : PlanFault) → commands ≤ MAX_MADE
        → AreSized (lines_of script)
        → script_text script ≡ load_text seed commands → plan_of script ≡ Err fault → ⊥ }
    ensures lines { (seed commands : ℕ) (script : Script) → AreSized (lines_of script)
        → script_text script ≡ load_text seed commands
        → lines_of script ≡ load_lines seed commands }
    ensures few { (seed commands : ℕ) → newlines (load_text seed commands) ≤ 18 + 8 * commands }
{}
