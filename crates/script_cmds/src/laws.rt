// Laws of the texts of scripts. The functions do nothing; their clauses are the laws.
ghost use Rattle.std.specs.Prelude.{◌≡◌, ◌≤◌, ℕ, List, None};
ghost use Rattle.script_line.specs.Sized.{AreSized};
ghost use Rattle.script_line.specs.Versions.{limits_of};
ghost use Rattle.script_cmds.specs.Counts.{sends_in_phases};
ghost use Rattle.script_cmds.specs.Fault.{first_fault};
ghost use Rattle.script_cmds.specs.Hosts.{HaveHosts};
ghost use Rattle.script_cmds.specs.Kept.{IsScriptText, KeepsOrderAndLimits};
ghost use Rattle.script_cmds.specs.Queues.{PhasesSendToQueues, queues_of};
ghost use Rattle.script_cmds.specs.Text.{lines_of, script_text};
ghost use Rattle.script_cmds.specs.declared.script.Script.{Script};

/// The text of a script is read again: no line of it is faulty, where the script's lines stand in their
/// places and keep their limits. No script with other lines has the same text. A text without a
/// faulty line is the text of such a script.
pub fn script_laws()
    ensures accepted { (script : Script) → AreSized (lines_of script)
        → KeepsOrderAndLimits script → first_fault (script_text script) ≡ None }
    ensures one_text { (a b : Script) → AreSized (lines_of a) → AreSized (lines_of b)
        → script_text a ≡ script_text b → lines_of a ≡ lines_of b }
    ensures some_script { (text : List ℕ) → first_fault text ≡ None → IsScriptText text }
{}

/// In each phase of a script that keeps order and limits the hosts ascend and are 1 to 16. It sends no more
/// commands than its version allows, and each to one of its queues.
pub fn limit_laws()
    ensures hosts { (script : Script) → KeepsOrderAndLimits script → HaveHosts script.phases }
    ensures sends { (script : Script) → KeepsOrderAndLimits script
        → sends_in_phases script.phases ≤ (limits_of script.form.version).sends }
    ensures queues { (script : Script) → KeepsOrderAndLimits script
        → PhasesSendToQueues (queues_of script.form) script.phases }
{}
