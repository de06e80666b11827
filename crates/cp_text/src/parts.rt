// Texts cut at a byte.
ghost use Rattle.std.specs.Prelude.{◌≡◌, ◌∷◌, [], ◌==◌, ◌++◌, true, position, option_map, IfSome, MatchOption};
ghost use Rattle.cp_text.specs.Parts.{lacks, parts_between, parts_in};

/// The text before the first byte of this value, and the text behind that byte where there is one.
pub fn split_part(text: &[u8], mark: u8) -> (&[u8], Option<&[u8]>)
    ensures parts { parts_between mark text.now
        ≡ result.0.now ∷ parts_in mark (option_map (λ rest. rest.now) result.1) }
    ensures whole { MatchOption result.1 (text.now ≡ result.0.now)
        (λ rest. text.now ≡ result.0.now ++ mark ∷ rest.now) }
    ensures first { lacks mark result.0.now ≡ true }
{
    match place_of(text, mark) {
        None => (text, None),
        Some(end) => (&text[..end], Some(&text[end + 1..])),
    }
}

// The place of the first byte of this value.
fn place_of(text: &[u8], mark: u8) -> Option<usize>
    ensures { result ≡ position (λ byte. byte == mark) text.now }
{
    text.iter().position(|byte| *byte == mark)
}

/// The first line of a text without its newline, and what stands behind that. `None` where no newline
/// stands in the text.
pub fn next_line(text: &[u8]) -> Option<(&[u8], &[u8])>
    ensures parts { MatchOption result (parts_between 10 text.now ≡ text.now ∷ [])
        (λ cut. parts_between 10 text.now ≡ cut.0.now ∷ parts_between 10 cut.1.now) }
    ensures whole { MatchOption result (lacks 10 text.now ≡ true)
        (λ cut. text.now ≡ cut.0.now ++ 10 ∷ cut.1.now) }
    ensures first { IfSome result (λ cut. lacks 10 cut.0.now ≡ true) }
{
    let (line, rest) = split_part(text, b'\n');
    match rest {
        Some(rest) => Some((line, rest)),
        None => None,
    }
}
