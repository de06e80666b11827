// The law of one output. The function does nothing; its clauses are the law.
ghost use Rattle.std.specs.Prelude.{◌≡◌, ◌≤◌, ℕ, List, length};
ghost use Rattle.std.specs.List.{AllByRecursion};
ghost use Rattle.schedule_model.specs.Schedule.{HasMemory};
ghost use Rattle.nvmecp.specs.Asm.{IsAssembly};
ghost use Rattle.nvmecp.specs.Dis.{IsDisassembly};
ghost use Rattle.nvmecp.specs.Serve.{IsPrintOfHosts, serve_task};
ghost use Rattle.nvmecp.specs.Step.{IsPrintOf};
ghost use Rattle.nvmecp.specs.Task.{IsRefusal};
ghost use Rattle.nvmecp.specs.Words.{task_of};
ghost use Rattle.nvmecp.specs.declared.words.Asked.{Asked};

/// One question and one input have one output: two texts that answer it are equal for `asm` and `dis`, two
/// texts that refuse it are equal for each word, and no input within its limit is both answered and refused. A script may
/// have several histories, but a text tells one of them; and workers and choices of `step` select one text, where no
/// command finds no memory.
pub fn one_output()
    ensures assembled { (input one other : List ℕ) → IsAssembly input one → IsAssembly input other → one ≡ other }
    ensures disassembled { (input one other : List ℕ) → IsDisassembly input one → IsDisassembly input other
        → one ≡ other }
    ensures refused { (asked : Asked) (input one other : List ℕ) → IsRefusal (task_of asked) input one
        → IsRefusal (task_of asked) input other → one ≡ other }
    ensures serve_refused { (input one other : List ℕ) → IsRefusal serve_task input one
        → IsRefusal serve_task input other
        → one ≡ other }
    ensures one_end { (asked : Asked) (input one other : List ℕ) → length input ≤ (task_of asked).limit
        → (task_of asked).Answers input one → IsRefusal (task_of asked) input other → ⊥ }
    ensures serve_one_end { (input one other : List ℕ) → length input ≤ serve_task.limit → serve_task.Answers input one
        → IsRefusal serve_task input other → ⊥ }
    ensures one_history { (script : _) (text : List ℕ) (workers choices others more : ℕ)
        → (one : IsPrintOf script workers choices text) → (other : IsPrintOf script others more text)
        → one.print.tells.history ≡ other.print.tells.history }
    ensures serve_one_history { (script : _) (text : List ℕ) → (one other : IsPrintOfHosts script text)
        → one.print.tells.history ≡ other.print.tells.history }
    ensures one_schedule { (script : _) (workers choices : ℕ) (text second : List ℕ)
        → (one : IsPrintOf script workers choices text) → (other : IsPrintOf script workers choices second)
        → AllByRecursion HasMemory one.trail → AllByRecursion HasMemory other.trail → text ≡ second }
{}
