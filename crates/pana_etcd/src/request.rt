//! The bodies of requests.
ghost use Rattle.std.specs.Prelude.{◌≡◌, ◌+◌, ◌≤◌, ◌++◌, List, ℕ, IfOk, OnOk, Some, length, map, string_bytes};
ghost use Rattle.pana_etcd.specs.Key.{in_base64};
ghost use Rattle.pana_etcd.specs.Request.{append_text, free_text, later_puts, login_text, made_text, next_text, put_text, puts_text, range_text};
ghost use Rattle.pana_etcd.specs.Value.{value_says};

use crate::base64_text::in_base64;
use crate::key::{LAST, end_text, key_text};
use crate::text_fault::TextFault;
use crate::value::encode_value;
use pana_shared::Record;
use std::alloc::{AllocError, Global};

/// How many records a transaction has at most: etcd takes 128 operations.
const MOST: usize = 100;

/// The body of the transaction that appends the records behind the first so many.
///
/// # Errors
///
/// `Other` where there are more than 100 records, where a number has more than ten digits, and where `encode_value` has it;
/// `OutOfMemory`.
pub(crate) fn append_body(
    alloc: Global,
    name: &str,
    at: u64,
    group: &[Record],
) -> Result<String, TextFault>
    ensures { IfOk result (λ body. (values : List (List ℕ)) × (map value_says values ≡ map Some group.now) × (string_bytes body ≡ append_text name.now (at + 1) values)) }
{
    if group.len() > MOST || at > LAST - MOST as u64 {
        return Err(TextFault::Other);
    }
    let values = values_of(alloc, group)?;
    match append_text(alloc, name, at + 1, values.as_slice()) {
        Ok(body) => Ok(body),
        Err(_) => Err(TextFault::OutOfMemory),
    }
}

/// The values that say the records.
fn values_of(alloc: Global, group: &[Record]) -> Result<Vec<Vec<u8>>, TextFault>
    ensures says { IfOk result (λ values. map value_says (map (λ value. value.items) values.items) ≡ map Some group.now) }
    ensures length { IfOk result (λ values. length values.items ≡ length group.now) }
{
    let mut values = Vec::new(alloc);
    for record in group {
        let value = encode_value(alloc, record)?;
        if values.push(value).is_err() {
            return Err(TextFault::OutOfMemory);
        }
    }
    Ok(values)
}

#[tactic(auto, unfolding(crate::specs::Request::append_text))]
fn append_text(
    alloc: Global,
    name: &str,
    number: u64,
    values: &[Vec<u8>],
) -> Result<String, AllocError>
    requires { number + length values.now ≤ 10_000_000_000 }
    ensures { IfOk result (λ text. string_bytes text ≡ append_text name.now number (map (λ value. value.items) values.now)) }
{
    let next = next_text(alloc, name, number)?;
    let puts = puts_text(alloc, name, number, values)?;
    let range = range_body(alloc, name, number)?;
    let next = next.as_str();
    let puts = puts.as_str();
    let range = range.as_str();
    format!(in alloc;
        "{{\"compare\":[{next}],\"success\":[{puts}],\"failure\":[{{\"requestRange\":{range}}}]}}"
    )
}

/// What asks whether the number is that of the next record.
fn next_text(alloc: Global, name: &str, number: u64) -> Result<String, AllocError>
    ensures { IfOk result (λ text. string_bytes text ≡ next_text name.now number) }
{
    if number <= 1 {
        return free_text(alloc, name, number);
    }
    let mut text = made_text(alloc, name, number - 1)?;
    let free = free_text(alloc, name, number)?;
    text.push(',')?;
    text.push_str(free.as_str())?;
    Ok(text)
}

#[tactic(auto, unfolding(crate::specs::Request::made_text))]
fn made_text(alloc: Global, name: &str, number: u64) -> Result<String, AllocError>
    ensures { IfOk result (λ text. string_bytes text ≡ made_text name.now number) }
{
    let key = key_text(alloc, name, number)?;
    let key = key.as_str();
    format!(in alloc;
        "{{\"key\":\"{key}\",\"target\":\"CREATE\",\"result\":\"GREATER\",\"createRevision\":\"0\"}}"
    )
}

fn free_text(alloc: Global, name: &str, number: u64) -> Result<String, AllocError>
    ensures { IfOk result (λ text. string_bytes text ≡ free_text name.now number) }
{
    let key = key_text(alloc, name, number)?;
    let end = end_text(alloc, name)?;
    let key = key.as_str();
    let end = end.as_str();
    format!(in alloc;
        "{{\"key\":\"{key}\",\"range_end\":\"{end}\",\"target\":\"CREATE\",\"result\":\"EQUAL\",\"createRevision\":\"0\"}}"
    )
}

fn puts_text(
    alloc: Global,
    name: &str,
    number: u64,
    values: &[Vec<u8>],
) -> Result<String, AllocError>
    requires { number + length values.now ≤ 10_000_000_000 }
    ensures { IfOk result (λ text. string_bytes text ≡ puts_text name.now number (map (λ value. value.items) values.now)) }
{
    let [first, later @ ..] = values else {
        return Ok(String::new(alloc));
    };
    let mut text = put_text(alloc, name, number, first.as_slice())?;
    push_puts(alloc, &mut text, name, number + 1, later)?;
    Ok(text)
}

/// Adds what puts these values, from this number on.
fn push_puts(
    alloc: Global,
    text: &mut String,
    name: &str,
    number: u64,
    values: &[Vec<u8>],
) -> Result<(), AllocError>
    requires { number + length values.now ≤ 10_000_000_000 }
    ensures { OnOk result (string_bytes text.new ≡ string_bytes text.old ++ later_puts name.now number (map (λ value. value.items) values.now)) }
{
    let [value, later @ ..] = values else {
        return Ok(());
    };
    let put = put_text(alloc, name, number, value.as_slice())?;
    text.push(',')?;
    text.push_str(put.as_str())?;
    push_puts(alloc, text, name, number + 1, later)
}

#[tactic(auto, unfolding(crate::specs::Request::put_text))]
fn put_text(alloc: Global, name: &str, number: u64, value: &[u8]) -> Result<String, AllocError>
    ensures { IfOk result (λ text. string_bytes text ≡ put_text name.now number value.now) }
{
    let key = key_text(alloc, name, number)?;
    let value = in_base64(alloc, value)?;
    let key = key.as_str();
    let value = value.as_str();
    format!(in alloc; "{{\"requestPut\":{{\"key\":\"{key}\",\"value\":\"{value}\"}}}}")
}

/// The body of the question for a token, by which who logs in is known. Fails only where memory runs out.
#[tactic(auto, unfolding(crate::specs::Request::login_text))]
pub(crate) fn login_body(alloc: Global, user: &str, password: &str) -> Result<String, AllocError>
    ensures { IfOk result (λ body. string_bytes body ≡ login_text user.now password.now) }
{
    format!(in alloc; "{{\"name\":\"{user}\",\"password\":\"{password}\"}}")
}

/// The body of the question for the records from this number on, 1,000 at most. Fails only where memory runs out.
#[tactic(auto, unfolding(crate::specs::Request::range_text))]
pub(crate) fn range_body(alloc: Global, name: &str, number: u64) -> Result<String, AllocError>
    ensures { IfOk result (λ body. string_bytes body ≡ range_text name.now number) }
{
    let key = key_text(alloc, name, number)?;
    let end = end_text(alloc, name)?;
    let key = key.as_str();
    let end = end.as_str();
    format!(in alloc; "{{\"key\":\"{key}\",\"range_end\":\"{end}\",\"limit\":\"1000\"}}")
}
