// Worked examples of the source and the sink in memory.
ghost use Rattle.std.specs.Prelude.{◌≡◌, [], ◌∷◌};
ghost use Rattle.cp_io.specs.Memory.{read_answer, after_read, write_answer, after_write};
ghost use Rattle.cp_io.specs.Worked.{opening_supply, first_supply, second_supply, opening_store, first_store, second_store};

use crate::{Got, Took};

/// Five bytes are read at most three at a time, and the second call fails.
pub fn worked_reads()
    ensures first { read_answer opening_supply 8 ≡ Got.Count 3 }
    ensures after_first { after_read opening_supply 8 ≡ first_supply }
    ensures second { read_answer first_supply 8 ≡ Got.Failed }
    ensures after_second { after_read first_supply 8 ≡ second_supply }
    ensures third { read_answer second_supply 1 ≡ Got.Count 1 }
    ensures end { read_answer (record second_supply { left = [] }) 8 ≡ Got.End }
{}

/// Two bytes are written, and the second call fails.
pub fn worked_writes()
    ensures first { write_answer opening_store 2 ≡ Took.Count 2 }
    ensures after_first { after_write opening_store (7 ∷ 8 ∷ []) ≡ first_store }
    ensures second { write_answer first_store 2 ≡ Took.Failed }
    ensures after_second { after_write first_store (7 ∷ 8 ∷ []) ≡ second_store }
    ensures third { write_answer second_store 2 ≡ Took.Count 2 }
{}
