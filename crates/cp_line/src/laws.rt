// Laws of the words, and worked examples. The functions do nothing; their clauses are the laws.
ghost use Rattle.std.specs.Prelude.{◌≡◌, ℕ, List, [], ◌∷◌, codes};
ghost use Rattle.cp_line.specs.Orders.{IsInTable, order_of, words_of};
ghost use Rattle.cp_line.specs.declared.order.Order.{Order};
ghost use Rattle.cp_line.specs.declared.order.Order.TheVariants as order;

/// Words are an order exactly where they are the one row of that order in the table, with numbers in their
/// ranges.
pub fn order_laws()
    ensures spelled_so { (words : List (List ℕ)) (order : Order) → order_of words ≡ Some order
        → (words ≡ words_of order) × IsInTable order }
    ensures read_so { (order : Order) → IsInTable order → order_of (words_of order) ≡ Some order }
{}

/// What some words are: orders at the limits, and words that are nearly orders.
pub fn orders_by_example()
    ensures none { order_of [] ≡ None }
    ensures step { order_of (codes "step" ∷ codes "16" ∷ codes "18446744073709551615" ∷ [])
        ≡ Some (order.Step 16 18446744073709551615) }
    ensures no_workers { order_of (codes "step" ∷ codes "0" ∷ codes "0" ∷ []) ≡ None }
    ensures seventeen { order_of (codes "step" ∷ codes "17" ∷ codes "0" ∷ []) ≡ None }
    ensures word_missing { order_of (codes "step" ∷ codes "1" ∷ []) ≡ None }
    ensures leading_zero { order_of (codes "step" ∷ codes "1" ∷ codes "00" ∷ []) ≡ None }
    ensures make { order_of (codes "make" ∷ codes "0" ∷ codes "8192" ∷ []) ≡ Some (order.Make 0 8192) }
    ensures too_many { order_of (codes "make" ∷ codes "0" ∷ codes "8193" ∷ []) ≡ None }
    ensures help { order_of (codes "--help" ∷ []) ≡ None }
    ensures word_too_many { order_of (codes "asm" ∷ codes "x" ∷ []) ≡ None }
{}
