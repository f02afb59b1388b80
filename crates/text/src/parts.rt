// The parts of a text between bytes that part it: fields between tabs, lines between newlines.
ghost use Rattle.std.specs.Prelude.{◌≡◌, ◌==◌, position};
ghost use Rattle.text.specs.Parts.{count, end_of};

// The place of the first byte sep.
fn first(text: &[u8], sep: u8) -> Option<usize>
    ensures { result ≡ position (λ b. b == sep) text.now }
{
    text.iter().position(|b| *b == sep)
}

// Where the part that starts at from ends: at the next byte sep, or at the text's end. From past the end, from itself.
pub fn part_end(text: &[u8], from: usize, sep: u8) -> usize
    ensures { result ≡ end_of sep text.now from }
{
    if text.len() < from {
        return from;
    }
    let rest = &text[from..];
    from + first(rest, sep).unwrap_or(rest.len())
}

// How many bytes sep a text has.
pub fn separators(text: &[u8], sep: u8) -> usize
    ensures { result ≡ count sep text.now }
{
    text.iter().filter(|b| **b == sep).count()
}
