// Laws of the texts, and worked examples. The functions do nothing; their clauses are the laws.
ghost use Rattle.std.specs.Prelude.{◌≡◌, ℕ, ◌+◌, ◌*◌, ◌^◌, ◌<◌, ◌≤◌, true, List, [], ◌∷◌, ◌++◌, length, count_by, ◌==◌, decimal, ℤ, pos, negsuc, FitsSigned, codes};
ghost use Rattle.std.specs.Fmt.{signed_decimal};
ghost use Rattle.std.specs.Int.{w64};
ghost use Rattle.cp_text.specs.Parts.{all_lack, joined_by, lacks, parts_between};
ghost use Rattle.cp_text.specs.Number.{AreDigits, spelled_number};
ghost use Rattle.cp_text.specs.Signed.{AreSignedDigits, signed_of};
ghost use Rattle.cp_text.specs.HexText.{AreBytes, AreHexDigits, hex_of, hex_text};

/// A text is read as a number exactly where it is the one text of that number, of 64 bits. This
/// text is 1 to 20 digits, and another number has another.
pub fn number_laws()
    ensures spelled_so { (text : List ℕ) (n : ℕ) → spelled_number text ≡ Some n
        → (text ≡ decimal n) × (n < 2 ^ 64) }
    ensures read_so { (n : ℕ) → n < 2 ^ 64 → spelled_number (decimal n) ≡ Some n }
    ensures one_number { (m n : ℕ) → m < 2 ^ 64 → n < 2 ^ 64
        → decimal m ≡ decimal n → m ≡ n }
    ensures digits { (n : ℕ) → n < 2 ^ 64 → AreDigits (decimal n) }
    ensures len { (n : ℕ) → n < 2 ^ 64
        → (1 ≤ length (decimal n)) × (length (decimal n) ≤ 20) }
{}

/// A text is read as a signed number exactly where it is the one text of that number, of 64 bits.
/// This text is 1 to 20 bytes, digits or a minus, and another number has another.
pub fn signed_laws()
    ensures spelled_so { (text : List ℕ) (z : ℤ) → signed_of text ≡ Some z
        → (text ≡ signed_decimal z) × FitsSigned w64 z }
    ensures read_so { (z : ℤ) → FitsSigned w64 z → signed_of (signed_decimal z) ≡ Some z }
    ensures one_number { (y z : ℤ) → FitsSigned w64 y → FitsSigned w64 z
        → signed_decimal y ≡ signed_decimal z → y ≡ z }
    ensures digits { (z : ℤ) → FitsSigned w64 z → AreSignedDigits (signed_decimal z) }
    ensures len { (z : ℤ) → FitsSigned w64 z
        → (1 ≤ length (signed_decimal z)) × (length (signed_decimal z) ≤ 20) }
{}

/// A text is read as bytes exactly where it is the one text of these bytes. It has two digits for
/// each, and other bytes have another.
pub fn hex_laws()
    ensures spelled_so { (text bytes : List ℕ) → hex_of text ≡ Some bytes
        → (text ≡ hex_text bytes) × AreBytes bytes }
    ensures read_so { (bytes : List ℕ) → AreBytes bytes → hex_of (hex_text bytes) ≡ Some bytes }
    ensures one_list { (a b : List ℕ) → AreBytes a → AreBytes b
        → hex_text a ≡ hex_text b → a ≡ b }
    ensures digits { (bytes : List ℕ) → AreBytes bytes → AreHexDigits (hex_text bytes) }
    ensures len { (bytes : List ℕ) → length (hex_text bytes) ≡ 2 * length bytes }
{}

/// The parts of a text with the mark between are the text, and they are one more than its marks. Parts
/// without a mark are found again, and so are a part and the text behind its mark.
pub fn part_laws()
    ensures joined_again { (mark : ℕ) (text : List ℕ) → joined_by mark (parts_between mark text) ≡ text }
    ensures number { (mark : ℕ) (text : List ℕ)
        → length (parts_between mark text) ≡ count_by (λ byte. byte == mark) text + 1 }
    ensures parts_again { (mark : ℕ) (part : List ℕ) (parts : List (List ℕ))
        → all_lack mark (part ∷ parts) ≡ true
        → parts_between mark (joined_by mark (part ∷ parts)) ≡ part ∷ parts }
    ensures first_again { (mark : ℕ) (part rest : List ℕ) → lacks mark part ≡ true
        → parts_between mark (part ++ mark ∷ rest) ≡ part ∷ parts_between mark rest }
{}

/// What some texts are read as: numbers at the limits, and texts that are nearly numbers.
pub fn number_examples()
    ensures empty { spelled_number [] ≡ None }
    ensures zero { spelled_number (codes "0") ≡ Some 0 }
    ensures leading_zero { spelled_number (codes "0512") ≡ None }
    ensures two_zeros { spelled_number (codes "00") ≡ None }
    ensures largest { spelled_number (codes "18446744073709551615") ≡ Some 18446744073709551615 }
    ensures too_large { spelled_number (codes "18446744073709551616") ≡ None }
    ensures plus { spelled_number (codes "+1") ≡ None }
    ensures space_behind { spelled_number (codes "1 ") ≡ None }
{}

/// The same of signed numbers.
pub fn signed_examples()
    ensures empty { signed_of [] ≡ None }
    ensures minus_alone { signed_of (codes "-") ≡ None }
    ensures minus_zero { signed_of (codes "-0") ≡ None }
    ensures minus_one { signed_of (codes "-1") ≡ Some (negsuc 0) }
    ensures largest { signed_of (codes "9223372036854775807") ≡ Some (pos 9223372036854775807) }
    ensures too_large { signed_of (codes "9223372036854775808") ≡ None }
    ensures least { signed_of (codes "-9223372036854775808") ≡ Some (negsuc 9223372036854775807) }
    ensures too_small { signed_of (codes "-9223372036854775809") ≡ None }
{}

/// The same of bytes, and how bytes are written.
pub fn hex_examples()
    ensures empty { hex_of [] ≡ Some [] }
    ensures lower { hex_of (codes "0aff") ≡ Some (10 ∷ 255 ∷ []) }
    ensures upper { hex_of (codes "0A") ≡ None }
    ensures odd { hex_of (codes "0a0") ≡ None }
    ensures no_digit { hex_of (codes "0g") ≡ None }
    ensures written { hex_text (10 ∷ 255 ∷ []) ≡ codes "0aff" }
{}

/// What some texts are cut into at spaces, code 32.
pub fn part_examples()
    ensures empty { parts_between 32 [] ≡ [] ∷ [] }
    ensures uncut { parts_between 32 (codes "ab") ≡ codes "ab" ∷ [] }
    ensures three { parts_between 32 (codes "a bc ") ≡ codes "a" ∷ codes "bc" ∷ [] ∷ [] }
    ensures joined { joined_by 32 (codes "a" ∷ [] ∷ codes "b" ∷ []) ≡ codes "a  b" }
{}
