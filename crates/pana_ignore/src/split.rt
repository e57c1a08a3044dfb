ghost use Rattle.std.specs.Prelude.{◌≡◌, ◌==◌, [], ◌∷◌, ◌++◌, ◌<◌, option_copied, length};
ghost use Rattle.pana_ignore.specs.Match.{split};
ghost use Rattle.pana_ignore.specs.inner.Splits.{splits, LeavesLess};

/// What stands before the first separator, and what stands behind it, if there is one.
pub(crate) fn split_first(text: &[u8], separator: u8) -> (&[u8], Option<&[u8]>)
    ensures split { split (λ b. b == separator) text.now ≡ result.0.now ∷ splits separator (option_copied result.1) }
    ensures less { LeavesLess (length text.now) (option_copied result.1) }
{
    match text.iter().position(|byte| *byte == separator) {
        Some(at) => (&text[..at], Some(&text[at + 1..])),
        None => (text, None),
    }
}

/// What stands before the last separator, if there is one, and what stands behind it.
pub(crate) fn split_last(text: &[u8], separator: u8) -> (Option<&[u8]>, &[u8])
    ensures { split (λ b. b == separator) text.now ≡ splits separator (option_copied result.0) ++ result.1.now ∷ [] }
{
    let mut start = text.len();
    while start > 0 {
        if text[start - 1] == separator {
            return (Some(&text[..start - 1]), &text[start..]);
        }
        start -= 1;
    }
    (None, text)
}
