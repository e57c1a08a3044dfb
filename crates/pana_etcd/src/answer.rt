//! What the bodies of answers say.
ghost use Rattle.std.specs.Prelude.{◌≡◌, ◌<◌, ◌+◌, ◌^◌, ◌==◌, ◌&&◌, [], IfErr, IfOk, IfSome, OnOk, Ok, Option, length, map, option_map, option_copied};
ghost use Rattle.serde_json.specs.View.{view};
ghost use Rattle.std.specs.Str.{bytes_eq};
ghost use Rattle.pana_etcd.specs.Key.{in_base64, key_of};
ghost use Rattle.pana_etcd.specs.Answer.{FailsAt, FindsPage, FindsRecords, answer_said, bytes_in, flag_of, found_in, has_flag, has_header, has_list, has_none, is_answer, list_of, outcome_in, page_in, record_at, records_from, says_full};
ghost use Rattle.pana_etcd.specs.Says.{Gives, Shows};

use crate::key::key_text;
use crate::text_fault::TextFault;
use crate::value::{decode_value, text_in, value_said};
use base64::DecodeAllocError;
use base64::engine::general_purpose::STANDARD;
use pana_shared::{ReadFault, Record};
use serde_json::Value;
use std::alloc::{AllocError, Global};

/// What a refusal says where etcd has no room for more.
const NO_SPACE: &str = "etcdserver: mvcc: database space exceeded";

/// The answer that a body is.
///
/// # Errors
///
/// `Other` where the body is no answer: no object in JSON with a header, or one whose flag or list is something else;
/// `OutOfMemory`.
#[tactic(auto, unfolding(crate::specs::Answer::answer_said))]
pub(crate) fn read_answer(alloc: Global, body: &[u8]) -> Result<Value, TextFault>
    ensures { Shows view result (answer_said body.now) }
{
    let answer = value_said(alloc, body)?;
    if is_answer(&answer) {
        Ok(answer)
    } else {
        Err(TextFault::Other)
    }
}

fn is_answer(value: &Value) -> bool
    ensures { result ≡ is_answer (view value.now) }
{
    has_header(value) && has_flag(value) && has_list(value)
}

fn has_flag(value: &Value) -> bool
    ensures { result ≡ has_flag (view value.now) }
{
    flag_of(value.get("succeeded")).is_some()
}

fn has_list(value: &Value) -> bool
    ensures { result ≡ has_list (view value.now) }
{
    list_of(value.get("kvs")).is_some()
}

fn has_header(answer: &Value) -> bool
    ensures { result ≡ has_header (view answer.now) }
{
    answer.get("header").and_then(Value::as_object).is_some()
}

/// Whether a refusal says that etcd has no room for more.
pub(crate) fn says_full(refusal: &Value) -> bool
    ensures { result ≡ says_full (view refusal.now) }
{
    match text_in(refusal, "message") {
        Some(message) => message == NO_SPACE,
        None => false,
    }
}

/// Whether an answer has no key.
pub(crate) fn has_none(answer: &Value) -> bool
    ensures { result ≡ has_none (view answer.now) }
{
    match list_of(answer.get("kvs")) {
        Some(kvs) => kvs.is_empty(),
        None => false,
    }
}

/// Whether a transaction did what it was to do, if its answer says so or says nothing of it.
pub(crate) fn read_outcome(answer: &Value) -> Option<bool>
    ensures { result ≡ outcome_in (view answer.now) }
{
    flag_of(answer.get("succeeded"))
}

/// What the question in a transaction was answered, if it was asked.
pub(crate) fn found_in(answer: &Value) -> Option<&Value>
    ensures { option_map (λ value. view value.now) result ≡ found_in (view answer.now) }
{
    let responses = answer.get("responses")?;
    let first = responses.get(0usize)?;
    first.get("response_range")
}

fn flag_of(member: Option<&Value>) -> Option<bool>
    ensures { result ≡ flag_of (option_map (λ value. view value.now) member.entry) }
{
    match member {
        Some(value) => value.as_bool(),
        None => Some(false),
    }
}

/// The records that an answer has, of keys from this number on.
///
/// # Errors
///
/// `NoAnswer` where its keys are no list; `Foreign` with the first number under whose key no record with this number stands;
/// `OutOfMemory`.
pub(crate) fn read_page(
    alloc: Global,
    name: &str,
    number: u64,
    answer: &Value,
) -> Result<Vec<Record>, ReadFault>
    requires { number < 2 ^ 62 }
    ensures { FindsPage (λ records. records.items) result (page_in name.now number (view answer.now)) }
{
    let Some(kvs) = list_of(answer.get("kvs")) else {
        return Err(ReadFault::NoAnswer);
    };
    records_from(alloc, name, number, kvs)
}

fn list_of(member: Option<&Value>) -> Option<&[Value]>
    ensures { option_map (λ list. map view list.now) result ≡ list_of (option_map (λ value. view value.now) member.entry) }
{
    match member {
        Some(value) => match value.as_array() {
            Some(list) => Some(list.as_slice()),
            None => None,
        },
        None => {
            let none: &[Value] = &[];
            Some(none)
        }
    }
}

fn records_from(
    alloc: Global,
    name: &str,
    number: u64,
    kvs: &[Value],
) -> Result<Vec<Record>, ReadFault>
    requires { number < 2 ^ 62 }
    ensures { FindsRecords (λ records. records.items) result (records_from name.now number (map view kvs.now)) }
{
    let mut records = Vec::new(alloc);
    match push_records(alloc, &mut records, name, number, kvs) {
        Ok(()) => Ok(records),
        Err(fault) => {
            drop(records);
            Err(fault)
        }
    }
}

/// Puts the records under the keys of this number and the next ones into a list that is empty.
fn push_records(
    alloc: Global,
    records: &mut Vec<Record>,
    name: &str,
    number: u64,
    kvs: &[Value],
) -> Result<(), ReadFault>
    requires within { number < 2 ^ 62 }
    requires empty { records.old.items ≡ [] }
    ensures ok { OnOk result (records_from name.now number (map view kvs.now) ≡ Ok records.new.items) }
    ensures err { IfErr result (λ fault. FailsAt fault (records_from name.now number (map view kvs.now))) }
{
    for (index, kv) in kvs.iter().enumerate() {
        let number = number + index as u64;
        match record_at(alloc, name, number, kv) {
            Ok(record) => {
                if let Err(failed) = records.push(record) {
                    drop(failed);
                    return Err(ReadFault::OutOfMemory);
                }
            }
            Err(TextFault::Other) => return Err(ReadFault::Foreign { number }),
            Err(TextFault::OutOfMemory) => return Err(ReadFault::OutOfMemory),
        }
    }
    Ok(())
}

/// The record under the key of a number.
#[tactic(auto, unfolding(crate::specs::Answer::record_at))]
fn record_at(alloc: Global, name: &str, number: u64, kv: &Value) -> Result<Record, TextFault>
    ensures { Gives result (record_at name.now number (view kv.now)) }
{
    let Some(key) = text_in(kv, "key") else {
        return Err(TextFault::Other);
    };
    let value = bytes_in(alloc, kv, "value")?;
    let record = decode_value(alloc, value.as_slice())?;
    match stands_at(alloc, name, number, key, &record) {
        Ok(true) => Ok(record),
        Ok(false) => {
            drop(record);
            Err(TextFault::Other)
        }
        Err(_) => {
            drop(record);
            Err(TextFault::OutOfMemory)
        }
    }
}

/// Whether the key of a number is this one, and the record's entry has the number. Fails only where memory runs out.
fn stands_at(
    alloc: Global,
    name: &str,
    number: u64,
    key: &str,
    found: &Record,
) -> Result<bool, AllocError>
    ensures { IfOk result (λ stands. stands ≡ (bytes_eq key.now (in_base64 (key_of name.now number)) && (found.now.entry.number == number))) }
{
    let wanted = key_text(alloc, name, number)?;
    Ok(key == wanted.as_str() && found.entry.number == number)
}

/// The bytes that a member has in base64.
fn bytes_in(alloc: Global, kv: &Value, name: &str) -> Result<Vec<u8>, TextFault>
    ensures { Shows (λ bytes. bytes.items) result (bytes_in name.now (view kv.now)) }
{
    let Some(text) = text_in(kv, name) else {
        return Err(TextFault::Other);
    };
    match STANDARD.decode(alloc, text.as_bytes()) {
        Ok(bytes) => Ok(bytes),
        Err(DecodeAllocError::OutOfMemory) => Err(TextFault::OutOfMemory),
        Err(_) => Err(TextFault::Other),
    }
}
