//! Where an access lies, with the law and worked examples of addresses.
ghost use Rattle.std.specs.Prelude.{◌≡◌, ◌≢◌, ℕ, Bool, true, false, ◌-◌, ◌^◌, ◌<◌, ◌≤◌, List, [], ◌∷◌, length, All};
ghost use Rattle.bpf_model.specs.Address.{InRange, InStack, Nowhere, LiesAt, IsForWriting, resolve, resolve_to_write};

/// Where the bytes of an access lie. The layout is this project's own.
#[derive(Clone, Copy, Debug, PartialEq, Eq)]
pub enum Location {
    /// In the range of this index, from 0, and there from this byte on.
    InRange { index: usize, offset: usize },
    /// In the stack, from this byte on.
    InStack { offset: usize },
    /// Not wholly in one range, and not wholly in the stack.
    Nowhere,
}

/// The law of addresses, for at most 16 ranges that are each shorter than 2^32 bytes: an access for reading
/// is resolved to a range or to the stack exactly where all its bytes lie there, and one for writing exactly
/// where they lie in a read-write range or in the stack.
pub fn addresses_are_resolved()
    ensures lies_there { (lengths : List ℕ) (address size : ℕ)
        → LiesAt lengths address size (resolve lengths address size) }
    ensures found { (lengths : List ℕ) (address size : ℕ) (location : Location) → All (λ len. len < 2 ^ 32) lengths
        → length lengths ≤ 16 →
        location ≢ Nowhere → LiesAt lengths address size location → resolve lengths address size ≡ location }
    ensures is_for_writing { (read_write : List Bool) (lengths : List ℕ) (address size : ℕ) →
        let location = resolve_to_write read_write lengths address size in LiesAt lengths address size location × IsForWriting read_write location }
    ensures found_for_writing { (read_write : List Bool) (lengths : List ℕ) (address size : ℕ) (location : Location) →
        All (λ len. len < 2 ^ 32) lengths → length lengths ≤ 16 → location ≢ Nowhere → LiesAt lengths address size location →
        IsForWriting read_write location → resolve_to_write read_write lengths address size ≡ location }
{}

/// Worked examples of addresses: ranges of 8 and 7 bytes and others, and the stack.
pub fn example_addresses()
    ensures first_byte { resolve (8 ∷ 7 ∷ []) 0x1_0000_0000 1 ≡ InRange 0 0 }
    ensures last_byte { resolve (8 ∷ 7 ∷ []) 0x1_0000_0007 1 ≡ InRange 0 7 }
    ensures one_past_a_range { resolve (8 ∷ 7 ∷ []) 0x1_0000_0008 1 ≡ Nowhere }
    ensures half_in_a_range { resolve (8 ∷ 7 ∷ []) 0x1_0000_0007 2 ≡ Nowhere }
    ensures below_the_first_range { resolve (8 ∷ 7 ∷ []) 0xffff_ffff 1 ≡ Nowhere }
    ensures second_range { resolve (8 ∷ 7 ∷ []) 0x2_0000_0003 4 ≡ InRange 1 3 }
    ensures eight_bytes_of_seven { resolve (8 ∷ 7 ∷ []) 0x2_0000_0000 8 ≡ Nowhere }
    ensures no_third_range { resolve (8 ∷ 7 ∷ []) 0x3_0000_0000 1 ≡ Nowhere }
    ensures range_of_one_byte { resolve (1 ∷ []) 0x1_0000_0000 1 ≡ InRange 0 0 }
    ensures two_bytes_of_one { resolve (1 ∷ []) 0x1_0000_0000 2 ≡ Nowhere }
    // ranges as long as may be leave a gap of one byte
    ensures up_to_the_gap { resolve ((2 ^ 32 - 1) ∷ 8 ∷ []) 0x1_ffff_fffd 2 ≡ InRange 0 0xffff_fffd }
    ensures across_the_gap { resolve ((2 ^ 32 - 1) ∷ 8 ∷ []) 0x1_ffff_fffe 4 ≡ Nowhere }
    ensures stack_begins { resolve [] 0x1_0000_0000_0000 8 ≡ InStack 0 }
    ensures stack_ends { resolve [] 0x1_0000_0000_0ff8 8 ≡ InStack 4088 }
    ensures before_the_stack { resolve [] 0xffff_ffff_ffff 2 ≡ Nowhere }
    ensures past_the_stack { resolve [] 0x1_0000_0000_0ff9 8 ≡ Nowhere }
    ensures greatest_address { resolve (8 ∷ []) 0xffff_ffff_ffff_ffff 8 ≡ Nowhere }
    ensures address_zero { resolve (8 ∷ []) 0 1 ≡ Nowhere }
    // the first of two ranges is read-only
    ensures read_only_range { resolve_to_write (false ∷ true ∷ []) (8 ∷ 7 ∷ []) 0x1_0000_0000 1 ≡ Nowhere }
    ensures read_write_range { resolve_to_write (false ∷ true ∷ []) (8 ∷ 7 ∷ []) 0x2_0000_0003 4 ≡ InRange 1 3 }
    ensures half_in_a_read_write_range { resolve_to_write (false ∷ true ∷ []) (8 ∷ 7 ∷ []) 0x2_0000_0006 2 ≡ Nowhere }
    ensures stack_is_written { resolve_to_write (false ∷ true ∷ []) (8 ∷ 7 ∷ []) 0x1_0000_0000_0ff8 8 ≡ InStack 4088 }
{}
