// Worked examples of the definitions. The functions do nothing: what they ensure is what is proved.
ghost use Rattle.std.specs.Prelude.{◌≡◌, ◌∷◌, ◌++◌, []};
ghost use Rattle.device_model.specs.Examples.{executes, exits_with_7, executes_builtin, from_memory, load, range, read_only, results, shown_after, statuses, stores_past_the_end, two_ranges, write};

use cp_base::{Command, Status};

/// Writes to a memory of 16 bytes.
pub fn writes_by_example()
    ensures first { shown_after (write 1 0 (1 ∷ 2 ∷ []) ∷ []) 0 4 ≡ 1 ∷ 2 ∷ 0 ∷ 0 ∷ [] }
    ensures answered { statuses (write 1 0 (1 ∷ 2 ∷ []) ∷ []) ≡ Status.Ok ∷ [] }
    ensures last { statuses (write 1 15 (1 ∷ []) ∷ []) ≡ Status.Ok ∷ [] }
    ensures past { statuses (write 1 16 (1 ∷ []) ∷ []) ≡ Status.OutOfRange ∷ [] }
    ensures unchanged { shown_after (write 1 16 (1 ∷ []) ∷ []) 0 4 ≡ 0 ∷ 0 ∷ 0 ∷ 0 ∷ [] }
    ensures largest { statuses (write 1 18446744073709551615 (1 ∷ []) ∷ []) ≡ Status.OutOfRange ∷ [] }
    ensures elsewhere { statuses (write 2 0 (1 ∷ []) ∷ []) ≡ Status.BadNamespace ∷ [] }
    ensures nothing { statuses (write 1 0 [] ∷ []) ≡ Status.BadLength ∷ [] }
{}

/// Copies in a memory of 16 bytes that begins with 0, 1, 2, 3, 4, 5.
pub fn copies_by_example()
    ensures itself { statuses (write 1 0 (0 ∷ 1 ∷ 2 ∷ 3 ∷ 4 ∷ 5 ∷ []) ∷ Command.MemCopy 1 4 (from_memory 0 8 ∷ []) ∷ [])
        ≡ Status.Ok ∷ Status.CopyOverlap ∷ [] }
    ensures sources { shown_after (write 1 0 (0 ∷ 1 ∷ 2 ∷ 3 ∷ 4 ∷ 5 ∷ []) ∷ Command.MemCopy 1 8 (from_memory 0 4 ∷ from_memory 2 4 ∷ []) ∷ []) 8 8
        ≡ 0 ∷ 1 ∷ 2 ∷ 3 ∷ 2 ∷ 3 ∷ 4 ∷ 5 ∷ [] }
{}

/// Sets of ranges of a memory of 16 bytes.
pub fn sets_by_example()
    ensures overlap { statuses (Command.SetCreate (range 0 8 ∷ range 4 8 ∷ []) ∷ []) ≡ Status.RangeOverlap ∷ [] }
    ensures outside { statuses (Command.SetCreate (range 8 9 ∷ []) ∷ []) ≡ Status.OutOfRange ∷ [] }
    ensures missing { statuses (Command.SetDelete 2 ∷ []) ≡ Status.NoSuchSet ∷ [] }
    ensures least { results (Command.SetCreate (range 0 8 ∷ range 8 8 ∷ []) ∷ Command.SetCreate (range 0 1 ∷ [])
        ∷ Command.SetDelete 1 ∷ Command.SetCreate (range 15 1 ∷ []) ∷ []) ≡ 1 ∷ 2 ∷ 0 ∷ 1 ∷ [] }
{}

/// A program of 16 bytes that is loaded in two pieces.
pub fn slots_by_example()
    ensures empty { statuses (Command.Activate 3 ∷ Command.Unload 3 ∷ Command.Deactivate 3 ∷ Command.Activate 64 ∷ [])
        ≡ Status.SlotEmpty ∷ Status.SlotEmpty ∷ Status.SlotEmpty ∷ Status.NoSuchSlot ∷ [] }
    ensures loading { statuses (
        load 3 16 8 (149 ∷ 0 ∷ 0 ∷ 0 ∷ 0 ∷ 0 ∷ 0 ∷ 0 ∷ [])
        ∷ load 3 16 8 (149 ∷ 0 ∷ 0 ∷ 0 ∷ 0 ∷ 0 ∷ 0 ∷ 0 ∷ [])
        ∷ load 3 24 0 (183 ∷ 0 ∷ 0 ∷ 0 ∷ 7 ∷ 0 ∷ 0 ∷ 0 ∷ [])
        ∷ Command.Activate 3
        ∷ load 3 16 0 (183 ∷ 0 ∷ 0 ∷ 0 ∷ 7 ∷ 0 ∷ 0 ∷ 0 ∷ [])
        ∷ load 3 16 0 (183 ∷ 0 ∷ 0 ∷ 0 ∷ 7 ∷ 0 ∷ 0 ∷ 0 ∷ [])
        ∷ Command.Deactivate 3 ∷ Command.Activate 3 ∷ Command.Unload 3 ∷ [])
        ≡ Status.Ok ∷ Status.PieceOverlap ∷ Status.SizeDiffers ∷ Status.SlotPartial ∷ Status.Ok ∷ Status.SlotComplete
        ∷ Status.SlotInactive
        ∷ Status.Ok ∷ Status.SlotActive ∷ [] }
    ensures bad_program { statuses (load 0 8 0 (255 ∷ 0 ∷ 0 ∷ 0 ∷ 0 ∷ 0 ∷ 0 ∷ 0 ∷ []) ∷ Command.Activate 0 ∷ [])
        ≡ Status.Ok ∷ Status.BadProgram ∷ [] }
    ensures bad_place { results (load 0 16 0 ((183 ∷ 0 ∷ 0 ∷ 0 ∷ 1 ∷ 0 ∷ 0 ∷ 0 ∷ []) ++ (24 ∷ 0 ∷ 0 ∷ 0 ∷ 0 ∷ 0 ∷ 0 ∷ 0 ∷ []))
        ∷ Command.Activate 0 ∷ []) ≡ 0 ∷ 1 ∷ [] }
{}

/// Executions of small programs on a memory of 16 bytes.
pub fn executions_by_example()
    ensures exit { results (executes exits_with_7 2) ≡ 1 ∷ 0 ∷ 0 ∷ 7 ∷ [] }
    ensures spent { statuses (executes exits_with_7 1) ≡ Status.Ok ∷ Status.Ok ∷ Status.Ok ∷ Status.BudgetSpent ∷ [] }
    ensures budget { statuses (executes exits_with_7 1001)
        ≡ Status.Ok ∷ Status.Ok ∷ Status.Ok ∷ Status.BudgetRange ∷ [] }
    ensures fault { statuses (executes stores_past_the_end 10)
        ≡ Status.Ok ∷ Status.Ok ∷ Status.Ok ∷ Status.BadAccess ∷ [] }
    ensures place { results (executes stores_past_the_end 10) ≡ 1 ∷ 0 ∷ 0 ∷ 3 ∷ [] }
    ensures kept { shown_after (executes stores_past_the_end 10) 0 2 ≡ 85 ∷ 0 ∷ [] }
{}

/// Programs of the device on a memory of 16 bytes that begins with 0 to 7.
pub fn device_programs_by_example()
    ensures count { results (executes_builtin two_ranges 64 0 0 16) ≡ 0 ∷ 1 ∷ 9 ∷ [] }
    ensures dear { statuses (executes_builtin two_ranges 64 0 0 15) ≡ Status.Ok ∷ Status.Ok ∷ Status.BudgetSpent ∷ [] }
    ensures sum { results (executes_builtin two_ranges 65 0 0 16) ≡ 0 ∷ 1 ∷ 28 ∷ [] }
    ensures compare { results (executes_builtin two_ranges 66 0 0 8) ≡ 0 ∷ 1 ∷ 1 ∷ [] }
    ensures equal { results (executes_builtin (range 0 8 ∷ []) 66 0 0 8) ≡ 0 ∷ 1 ∷ 18446744073709551615 ∷ [] }
    ensures classes { results (executes_builtin two_ranges 67 259 5 8) ≡ 0 ∷ 1 ∷ 3 ∷ [] }
    ensures marks { shown_after (executes_builtin two_ranges 67 3 5 8) 8 8 ≡ 0 ∷ 0 ∷ 0 ∷ 1 ∷ 1 ∷ 1 ∷ 0 ∷ 0 ∷ [] }
    ensures read_only { statuses (executes_builtin (range 0 8 ∷ read_only 8 8 ∷ []) 67 3 5 8)
        ≡ Status.Ok ∷ Status.Ok ∷ Status.BadAccess ∷ [] }
    ensures unchanged { shown_after (executes_builtin (range 0 8 ∷ read_only 8 8 ∷ []) 67 0 255 8) 8 2 ≡ 0 ∷ 0 ∷ [] }
    ensures behind { statuses (executes_builtin two_ranges 68 0 0 8) ≡ Status.Ok ∷ Status.Ok ∷ Status.NoSuchSlot ∷ [] }
{}
