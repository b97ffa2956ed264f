// The lines of a text, one after another.
ghost use Rattle.std.specs.Prelude.{◌≡◌, ◌≢◌, ◌<◌, ◌∷◌, ◌++◌, IfSome, IsNone, length};
ghost use Rattle.std.specs.List.{All};
ghost use Rattle.irr_lines.specs.Lines.{IsContent, IsFirstLine};

/// The first line of a text that is not empty, without its end, and what follows its end. A line ends with a
/// line feed, with or without a carriage return before it; the last line may lack its end.
pub fn next_line(text: &[u8]) -> (&[u8], &[u8])
    requires { 0 < length text.now }
    ensures line { IsFirstLine text.now result.0.now result.1.now }
    ensures shorter { length result.1.now < length text.now }
{
    match at_line_feed(text) {
        Some((before, rest)) => (content(before), rest),
        None => (text, &text[text.len()..]),
    }
}

// The bytes before and behind the first line feed.
fn at_line_feed(text: &[u8]) -> Option<(&[u8], &[u8])>
    ensures found { IfSome result (λ parts. text.now ≡ parts.0.now ++ 10 ∷ parts.1.now) }
    ensures before { IfSome result (λ parts. All (λ b. b ≢ 10) parts.0.now) }
    ensures none { IsNone result → All (λ b. b ≢ 10) text.now }
{
    let at = text.iter().position(|b| *b == b'\n')?;
    Some((&text[..at], &text[at + 1..]))
}

// What stands before a line feed, without a carriage return at its end.
fn content(before: &[u8]) -> &[u8]
    ensures { IsContent before.now result.now }
{
    match before.split_last() {
        Some((last, front)) if *last == b'\r' => front,
        _ => before,
    }
}
