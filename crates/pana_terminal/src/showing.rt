ghost use Rattle.std.specs.Prelude.{◌≡◌, ◌++◌, IfOk, OnOk, string_bytes};
ghost use Rattle.pana_terminal.specs.Shown.{is_hidden, is_printable, code_text, shown_char, shown};

use std::alloc::{AllocError, Global};

/// Whether a terminal isn't to get this character as it is: a control character but the newline, a separator of lines or
/// paragraphs, or one that turns the direction of writing.
fn is_hidden(c: char) -> bool
    ensures { result ≡ is_hidden c }
{
    let code = c as u32;
    match code {
        0x0A => false,
        0x00..=0x1F | 0x7F..=0x9F => true,
        0x061C | 0x200E | 0x200F => true,
        0x2028..=0x202E | 0x2066..=0x2069 => true,
        _ => false,
    }
}

/// Appends the code of a character, as `\u{202e}`.
fn push_code(text: &mut String, alloc: Global, c: char) -> Result<(), AllocError>
    ensures { OnOk result (string_bytes text.new ≡ string_bytes text.old ++ code_text c) }
{
    let code = format!(in alloc; "\\u{{{:x}}}", c as u32)?;
    text.push_str(code.as_str())
}

/// Appends a character, or its code where it is hidden.
fn push_shown(text: &mut String, alloc: Global, c: char) -> Result<(), AllocError>
    ensures { OnOk result (string_bytes text.new ≡ string_bytes text.old ++ shown_char c) }
{
    if is_hidden(c) {
        push_code(text, alloc, c)
    } else {
        text.push(c)
    }
}

/// Whether each byte of the text is a blank or a visible character of ASCII: it is shown as it is. Takes no memory; O(n) in the
/// text.
pub fn is_printable(text: &str) -> bool
    ensures { result ≡ is_printable text.now }
{
    text.as_bytes()
        .iter()
        .all(|byte| matches!(byte, 0x20..=0x7E))
}

/// The text as a terminal may show it, character by character.
fn shown_by_char(alloc: Global, text: &str) -> Result<String, AllocError>
    ensures { IfOk result (λ out. string_bytes out ≡ shown text.now) }
{
    let mut out = String::with_capacity(alloc, text.len())?;
    for c in text.chars() {
        push_shown(&mut out, alloc, c)?;
    }
    Ok(out)
}

/// The text as a terminal may show it: each control character but the newline, each separator of lines or paragraphs and
/// each character that turns the direction of writing stands as its code, as `\u{202e}`. Fails only where memory runs
/// out; O(n) in the text.
#[tactic(auto, using(crate::proofs::Printable::printable_stays))]
pub fn shown(alloc: Global, text: &str) -> Result<String, AllocError>
    ensures { IfOk result (λ out. string_bytes out ≡ shown text.now) }
{
    if is_printable(text) {
        return String::from_str(alloc, text);
    }
    shown_by_char(alloc, text)
}
