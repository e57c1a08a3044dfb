//! The words of the grammar that both trees have: single bytes, and numbers.
ghost use Rattle.std.specs.Prelude.{◌≡◌, ◌-◌, length};
ghost use Rattle.pana_text.specs.inner.Reading.{Reads, after, digits_from, fork_number_at, number_at};
ghost use Rattle.pana_text.specs.inner.Limits.{fitted, with_digit};

use crate::fault::TextFault;

/// The syntax fault at the first byte of `rest`, the last bytes of a text of `total` bytes.
pub(crate) fn syntax_at(rest: &[u8], total: usize) -> TextFault
    ensures { result ≡ TextFault.Syntax (total - length rest.now) }
{
    TextFault::Syntax(total.saturating_sub(rest.len()) as u64)
}

/// What follows the byte.
pub(crate) fn after(rest: &[u8], byte: u8, total: usize) -> Result<&[u8], TextFault>
    ensures { Reads (λ x. x.now) result (after total byte rest.now) }
{
    match rest {
        [first, others @ ..] if *first == byte => Ok(others),
        _ => Err(syntax_at(rest, total)),
    }
}

/// The number with one more digit at its end, `None` where it is above the greatest `u64`.
fn with_digit(number: Option<u64>, digit: u64) -> Option<u64>
    ensures { result ≡ with_digit number digit }
{
    number?.checked_mul(10)?.checked_add(digit)
}

/// The number of the digits that the text begins with, and what follows them.
/// The number is `None` where it is above the greatest `u64`.
#[tactic(auto, using(crate::proofs::Digits::start))]
fn digits_of(text: &[u8]) -> (Option<u64>, &[u8])
    ensures number { result.0 ≡ fitted (digits_from 0 text.now).0 }
    ensures rest { result.1.now ≡ (digits_from 0 text.now).1 }
{
    let mut number = Some(0);
    let mut rest = text;
    while let [digit @ b'0'..=b'9', others @ ..] = rest {
        number = with_digit(number, u64::from(*digit - b'0'));
        rest = others;
    }
    (number, rest)
}

/// The number that the text begins with, and what follows it.
/// The number is `None` where it is above the greatest `u64`.
#[tactic(auto, unfolding(crate::specs::inner::Reading::number_at))]
pub(crate) fn number_at(text: &[u8], total: usize) -> Result<(Option<u64>, &[u8]), TextFault>
    ensures { Reads (λ x. (x.0, x.1.now)) result (number_at fitted total text.now) }
{
    match text {
        [b'0', rest @ ..] => Ok((Some(0), rest)),
        [b'1'..=b'9', ..] => Ok(digits_of(text)),
        _ => Err(syntax_at(text, total)),
    }
}

/// The number of a fork that the text begins with, and what follows its comma.
#[tactic(auto, unfolding(crate::specs::inner::Reading::fork_number_at))]
pub(crate) fn fork_number_at(text: &[u8], total: usize) -> Result<(Option<u64>, &[u8]), TextFault>
    ensures { Reads (λ x. (x.0, x.1.now)) result (fork_number_at fitted total text.now) }
{
    let (number, rest) = number_at(text, total)?;
    let rest = after(rest, b',', total)?;
    Ok((number, rest))
}
