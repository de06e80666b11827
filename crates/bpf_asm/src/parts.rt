//! One, two and three parts of a text between spaces.
ghost use Rattle.std.specs.Prelude.{◌≡◌, option_map};
ghost use Rattle.cp_text.specs.Parts.{parts_in};
ghost use Rattle.bpf_asm.specs.Reading.{one_of, three_of, two_of};

use cp_text::split_part;

/// The only part of a text, between spaces.
#[tactic(auto, using(crate::proofs::SpacedParts::more_than_one))]
pub fn one(text: Option<&[u8]>) -> Option<&[u8]>
    ensures { option_map (λ t. t.now) result ≡ one_of (parts_in 32 (option_map (λ t. t.now) text.entry)) }
{
    let (part, rest) = split_part(text?, b' ');
    if rest.is_some() {
        return None;
    }
    Some(part)
}

/// The two parts of a text, between spaces.
pub fn two(text: Option<&[u8]>) -> Option<(&[u8], &[u8])>
    ensures { option_map (λ p. (p.0.now, p.1.now)) result ≡ two_of (parts_in 32 (option_map (λ t. t.now) text.entry)) }
{
    let (first, rest) = split_part(text?, b' ');
    Some((first, one(rest)?))
}

/// The three parts of a text, between spaces.
pub fn three(text: Option<&[u8]>) -> Option<(&[u8], &[u8], &[u8])>
    ensures { option_map (λ p. (p.0.now, p.1.now, p.2.now)) result
        ≡ three_of (parts_in 32 (option_map (λ t. t.now) text.entry)) }
{
    let (first, rest) = split_part(text?, b' ');
    let (second, third) = two(rest)?;
    Some((first, second, third))
}
