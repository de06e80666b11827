// The command that a line of a history names.
ghost use Rattle.std.specs.Prelude.{◌≡◌, ◌∷◌, ◌++◌, ◌<◌, ◌^◌, IsSomeAnd, List, Some, decimal, true, ℕ};
ghost use Rattle.cp_text.specs.Parts.{lacks};
ghost use Rattle.history_check.specs.Name.{IsNamed};

use cp_text::{number, split_part};

// The first field of a text, and what stands behind the space that ends it.
fn next_field(text: &[u8]) -> Option<(&[u8], &[u8])>
    ensures { (field rest : List ℕ) → lacks 32 field ≡ true → text.now ≡ field ++ 32 ∷ rest
        → IsSomeAnd result (λ cut. (cut.0.now ≡ field) × (cut.1.now ≡ rest)) }
{
    let (field, rest) = split_part(text, b' ');
    match rest {
        Some(rest) => Some((field, rest)),
        None => None,
    }
}

// The number behind a letter.
fn number_behind(letter: u8, field: &[u8]) -> Option<u64>
    ensures { (n : ℕ) → n < 2 ^ 64 → field.now ≡ letter ∷ decimal n → result ≡ Some n }
{
    match field.split_first() {
        Some((first, digits)) if *first == letter => number(digits),
        _ => None,
    }
}

/// The host and the ordinal that a line names: `#<k> h<host> n<ordinal> ..`. What it answers to another line says
/// nothing.
pub(crate) fn name_in(line: &[u8]) -> Option<(u64, u64)>
    ensures { (host ordinal : ℕ) → IsNamed line.now host ordinal → result ≡ Some (host, ordinal) }
{
    let (_, rest) = next_field(line)?;
    let (host, rest) = next_field(rest)?;
    let (ordinal, _) = next_field(rest)?;
    Some((number_behind(b'h', host)?, number_behind(b'n', ordinal)?))
}
