//! Keys of records.
ghost use Rattle.std.specs.Prelude.{◌≡◌, IfOk, string_bytes};
ghost use Rattle.pana_etcd.specs.Key.{end_of, in_base64, key_of, ten_digits};

use crate::base64_text::in_base64;
use std::alloc::{AllocError, Global};

/// The greatest number that a key has ten digits for.
pub(crate) const LAST: u64 = 9_999_999_999;

/// The key of a record, in base64. Fails only where memory runs out.
pub(crate) fn key_text(alloc: Global, name: &str, number: u64) -> Result<String, AllocError>
    ensures { IfOk result (λ text. string_bytes text ≡ in_base64 (key_of name.now number)) }
{
    let key = key_of(alloc, name, number)?;
    in_base64(alloc, key.as_bytes())
}

#[tactic(auto, unfolding(crate::specs::Key::key_of))]
fn key_of(alloc: Global, name: &str, number: u64) -> Result<String, AllocError>
    ensures { IfOk result (λ key. string_bytes key ≡ key_of name.now number) }
{
    let digits = ten_digits(alloc, number)?;
    let digits = digits.as_str();
    format!(in alloc; "{name}/{digits}")
}

fn ten_digits(alloc: Global, number: u64) -> Result<String, AllocError>
    ensures { IfOk result (λ digits. string_bytes digits ≡ ten_digits number) }
{
    format!(in alloc; "{number:010}")
}

/// What is greater than each key of the log, and less than any other, in base64. Fails only where memory runs out.
#[tactic(auto, unfolding(crate::specs::Key::end_of))]
pub(crate) fn end_text(alloc: Global, name: &str) -> Result<String, AllocError>
    ensures { IfOk result (λ text. string_bytes text ≡ in_base64 (end_of name.now)) }
{
    let end = format!(in alloc; "{name}0")?;
    in_base64(alloc, end.as_bytes())
}
