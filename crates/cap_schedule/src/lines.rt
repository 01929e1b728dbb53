ghost use Rattle.std.specs.Prelude.{◌≡◌, ◌∷◌, ◌<◌, ◌==◌, length, IfOk, map, position};
ghost use Rattle.std.specs.List.{slice_split};
ghost use Rattle.std.specs.Str.Lines.{lines, strip_carriage_return};

use std::alloc::{AllocError, Global};

// The place of the first line feed.
fn line_feed(text: &[u8]) -> Option<usize>
    ensures { result ≡ position (λ b. b == 10) text.now }
{
    text.iter().position(|b| *b == b'\n')
}

// The line without the carriage return at its end.
fn strip(line: &[u8]) -> &[u8]
    ensures { result.now ≡ strip_carriage_return line.now }
{
    if !line.is_empty() && line[line.len() - 1] == b'\r' {
        line.split_at(line.len() - 1).0
    } else {
        line
    }
}

/// The first line of a text that isn't empty, and the text after it.
pub fn first_line(text: &[u8]) -> (&[u8], &[u8])
    requires { 0 < length text.now }
    ensures lines { lines text.now ≡ result.0.now ∷ lines result.1.now }
    ensures shorter { length result.1.now < length text.now }
{
    match line_feed(text) {
        None => text.split_at(text.len()),
        Some(at) => {
            let (line, rest) = text.split_at(at);
            (strip(line), rest.split_at(1).1)
        }
    }
}

/// The pieces of a text between bytes of this value.
pub fn pieces_of(alloc: Global, text: &[u8], separator: u8) -> Result<Vec<&[u8]>, AllocError>
    ensures { IfOk result (λ pieces. map (λ p. p.now) pieces.items ≡ slice_split (λ b. b == separator) text.now) }
{
    text.split(|b| *b == separator).collect(alloc)
}
