//! Cuts a text into lines, and a comment off its line.

ghost use Rattle.std.specs.Prelude.{◌≡◌, ◌<◌, ◌≤◌, ◌∷◌, ◌==◌, not, length};
ghost use Rattle.std.specs.List.{prefix_len};
ghost use Rattle.std.specs.Str.Lines.{lines, strip_carriage_return};
ghost use Rattle.source_text.specs.Content.{begins_comment, without_comment};

fn line_len(text: &[u8]) -> usize
    ensures value { result ≡ prefix_len (λ b. not (b == 10)) text.now }
    ensures small { result ≤ length text.now }
{
    text.iter().take_while(|byte| **byte != b'\n').count()
}

fn strip_carriage_return(line: &[u8]) -> &[u8]
    ensures { result.now ≡ strip_carriage_return line.now }
{
    match line {
        [front @ .., b'\r'] => front,
        _ => line,
    }
}

/// The first line of a text, and the text after it.
pub fn first_line(text: &[u8]) -> (&[u8], &[u8])
    requires { 0 < length text.now }
    ensures value { lines text.now ≡ result.0.now ∷ lines result.1.now }
    ensures less { length result.1.now < length text.now }
{
    let len = line_len(text);
    if len < text.len() {
        (strip_carriage_return(&text[..len]), &text[len + 1..])
    } else {
        (text, &text[len..])
    }
}

/// The line up to its comment.
pub fn without_comment(line: &[u8]) -> &[u8]
    ensures { result.now ≡ without_comment line.now }
{
    for at in 0..line.len() {
        if begins_comment(&line[at..]) {
            return &line[..at];
        }
    }
    line
}

fn begins_comment(rest: &[u8]) -> bool
    ensures { result ≡ begins_comment rest.now }
{
    match rest {
        [first, second, ..] => *first == b'/' && *second == b'/',
        _ => false,
    }
}
