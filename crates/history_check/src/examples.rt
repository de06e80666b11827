// Worked examples of the definitions. The functions do nothing: what they ensure is what is proved.
ghost use Rattle.std.specs.Prelude.{◌≡◌, ◌∷◌, []};
ghost use Rattle.history_check.specs.FirstBad.{lines_in};

/// The lines of a text: each is ended by a newline but for a rest, which is a line too.
pub fn lines_by_example()
    ensures none { lines_in [] ≡ [] }
    ensures empty { lines_in (10 ∷ 10 ∷ []) ≡ (10 ∷ []) ∷ (10 ∷ []) ∷ [] }
    ensures rest { lines_in (97 ∷ 10 ∷ 98 ∷ 99 ∷ []) ≡ (97 ∷ 10 ∷ []) ∷ (98 ∷ 99 ∷ []) ∷ [] }
{}
