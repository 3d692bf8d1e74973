// Where a text is cut in two.
ghost use Rattle.words.specs.Cuts.{Cut};

// The text before the first byte that is `mark`, and the text behind it; nothing if it has no such
// byte.
pub fn cut<'a>(text: &'a [u8], mark: u8) -> Option<(&'a [u8], &'a [u8])>
    ensures { Cut mark text.now result }
{
    let at = text.iter().position(|b| *b == mark)?;
    Some((&text[..at], &text[at + 1..]))
}
