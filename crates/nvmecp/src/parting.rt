// The first empty line of an input.
ghost use Rattle.std.specs.Prelude.{◌≡◌, ◌<◌, ◌↔◌, true, None, IfSome, length};
ghost use Rattle.nvmecp.specs.Check.{HasNoEmptyLine, IsEmptyLine, IsFirstEmptyLine};

// Whether an empty line stands at a place: a newline, at the text's begin or directly behind another one.
fn is_empty_line(text: &[u8], place: usize) -> bool
    requires { place < length text.now }
    ensures { (result ≡ true) ↔ IsEmptyLine text.now place }
{
    text[place] == b'\n' && (place == 0 || text[place - 1] == b'\n')
}

/// The place of the first empty line of a text. `None` where no line is empty.
pub fn first_empty_line(text: &[u8]) -> Option<usize>
    ensures none { result ≡ None → HasNoEmptyLine text.now }
    ensures first { IfSome result (IsFirstEmptyLine text.now) }
    ensures within { IfSome result (λ place. place < length text.now) }
{
    for place in 0..text.len() {
        if is_empty_line(text, place) {
            return Some(place);
        }
    }
    None
}
