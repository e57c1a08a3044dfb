//! The lines of calls.
ghost use Rattle.std.specs.Prelude.{◌≡◌, IfOk, IsTrue, string_bytes};
ghost use Rattle.pana_client.specs.Line.{IsCallLine, IsOneLine};

use json::Writer;
use pana_calls::{Call, Message, Query, Sighting};
use pana_copies::{DeviceName, Place, Sum};
use pana_wire::{WireFault, decode, encode_call};
use std::alloc::{AllocError, Global};

/// Why a call has no line.
#[derive(Clone, Copy)]
pub enum CallFault {
    /// The line that was written for it isn't read back as this call.
    NotReadBack,
    /// An allocation failed.
    OutOfMemory,
}

/// The line that makes a device's call, without its newline: an object in JSON with no blank.
///
/// The line is read back before it is returned. It takes memory for its text, and for the call that is read back.
///
/// # Errors
///
/// `OutOfMemory`; `NotReadBack`, which no call is known to meet.
pub fn call_line(alloc: Global, by: &DeviceName, call: &Call) -> Result<String, CallFault>
    ensures { IfOk result (λ line. IsCallLine by.now call.now (string_bytes line)) }
{
    let Ok(line) = text_of(alloc, by, call) else {
        return Err(CallFault::OutOfMemory);
    };
    if is_call_line(alloc, line.as_bytes(), by, call)? {
        Ok(line)
    } else {
        Err(CallFault::NotReadBack)
    }
}

/// Whether the bytes are one line, which is read as this call.
fn is_call_line(alloc: Global, line: &[u8], by: &DeviceName, call: &Call) -> Result<bool, CallFault>
    ensures { IfOk result (λ is. IsTrue is → IsCallLine by.now call.now line.now) }
{
    match decode(alloc, line) {
        Ok(message) => {
            let is_call = is_line_of(line, &message, by, call);
            drop(message);
            Ok(is_call)
        }
        Err(WireFault::OutOfMemory) => Err(CallFault::OutOfMemory),
        Err(_) => Ok(false),
    }
}

/// Whether the bytes are one line, and the message is the device's call.
fn is_line_of(line: &[u8], message: &Message, by: &DeviceName, call: &Call) -> bool
    ensures line { IsTrue result → IsOneLine line.now }
    ensures message { IsTrue result → message.now ≡ record { by = by.now; call = call.now } }
{
    is_one_line(line) && is_message(message, by, call)
}

/// Whether the bytes are one line: none is a newline.
fn is_one_line(bytes: &[u8]) -> bool
    ensures { IsTrue result → IsOneLine bytes.now }
{
    !bytes.contains(&b'\n')
}

/// Whether the message is the device's call.
fn is_message(message: &Message, by: &DeviceName, call: &Call) -> bool
    ensures { IsTrue result → message.now ≡ record { by = by.now; call = call.now } }
{
    message.by == *by && message.call == *call
}

/// The members of the line of a sighting or a question, in the order in which they stand there. What isn't given is left out.
#[derive(Clone, Copy)]
struct Members<'a> {
    a: Option<u64>,
    b: Option<u64>,
    by: &'a str,
    device: Option<&'a str>,
    word: &'a str,
    family: Option<u64>,
    from: Option<u64>,
    path: Option<&'a str>,
    sum: Option<&'a Sum>,
    wait: Option<u64>,
}

impl<'a> Members<'a> {
    /// Those of a word alone.
    fn of(by: &'a DeviceName, word: &'a str) -> Members<'a> {
        Members {
            a: None,
            b: None,
            by: by.as_str(),
            device: None,
            word,
            family: None,
            from: None,
            path: None,
            sum: None,
            wait: None,
        }
    }

    /// Those of a word about a place.
    fn at(by: &'a DeviceName, word: &'a str, place: &'a Place) -> Members<'a> {
        Members {
            device: Some(place.device.as_str()),
            path: Some(place.path.as_str()),
            ..Members::of(by, word)
        }
    }
}

fn members_of_sighting<'a>(by: &'a DeviceName, sighting: &'a Sighting) -> Members<'a> {
    match sighting {
        Sighting::Found { place, sum } => Members {
            sum: Some(sum),
            ..Members::at(by, "found", place)
        },
        Sighting::Missing { place } => Members::at(by, "missing", place),
    }
}

fn members_of_query<'a>(by: &'a DeviceName, query: &'a Query) -> Members<'a> {
    match query {
        Query::Families => Members::of(by, "families"),
        Query::Board { family } => Members {
            family: Some(*family),
            ..Members::of(by, "board")
        },
        Query::Stamps { family } => Members {
            family: Some(*family),
            ..Members::of(by, "stamps")
        },
        Query::Pair { a, b } => Members {
            a: Some(*a),
            b: Some(*b),
            ..Members::of(by, "pair")
        },
        Query::Holdings { device, from } => Members {
            device: Some(device.as_str()),
            from: *from,
            ..Members::of(by, "holdings")
        },
        Query::At { place } => Members::at(by, "at", place),
        Query::Status { device, from } => Members {
            device: device.as_ref().map(|device| device.as_str()),
            from: Some(*from),
            ..Members::of(by, "status")
        },
        Query::JournalFrom { entry } => Members {
            from: Some(*entry),
            ..Members::of(by, "journal")
        },
        Query::JournalAwaited { entry, seconds } => Members {
            from: Some(*entry),
            wait: Some(*seconds),
            ..Members::of(by, "journal")
        },
        Query::Counts => Members::of(by, "counts"),
    }
}

fn write_number(
    out: &mut Writer<Global>,
    name: &str,
    number: Option<u64>,
) -> Result<(), AllocError> {
    match number {
        Some(number) => {
            out.key(name)?;
            out.u64(number)
        }
        None => Ok(()),
    }
}

fn write_text(out: &mut Writer<Global>, name: &str, text: Option<&str>) -> Result<(), AllocError> {
    match text {
        Some(text) => {
            out.key(name)?;
            out.string(text)
        }
        None => Ok(()),
    }
}

fn write_sum(alloc: Global, out: &mut Writer<Global>, sum: Option<&Sum>) -> Result<(), AllocError> {
    match sum {
        Some(sum) => write_text(out, "sum", Some(sum.text(alloc)?.as_str())),
        None => Ok(()),
    }
}

fn write_members(
    alloc: Global,
    out: &mut Writer<Global>,
    members: Members<'_>,
) -> Result<(), AllocError> {
    out.begin_object()?;
    write_number(out, "a", members.a)?;
    write_number(out, "b", members.b)?;
    write_text(out, "by", Some(members.by))?;
    write_text(out, "device", members.device)?;
    write_text(out, "do", Some(members.word))?;
    write_number(out, "family", members.family)?;
    write_number(out, "from", members.from)?;
    write_text(out, "path", members.path)?;
    write_sum(alloc, out, members.sum)?;
    write_number(out, "wait", members.wait)?;
    out.end_object()
}

/// The text of an object with these members; that of no object is empty.
fn text_of_members(alloc: Global, members: Members<'_>) -> Result<String, AllocError> {
    let mut out = Writer::new(Vec::new(alloc));
    write_members(alloc, &mut out, members)?;
    match String::from_utf8(out.into_inner()) {
        Ok(text) => Ok(text),
        Err(_) => Ok(String::new(alloc)),
    }
}

/// The text of a call. That it is read as this call is for `is_call_line` to find.
fn text_of(alloc: Global, by: &DeviceName, call: &Call) -> Result<String, AllocError> {
    match call {
        Call::Report(report) => encode_call(alloc, by, report),
        Call::Sighting(sighting) => text_of_members(alloc, members_of_sighting(by, sighting)),
        Call::Query(query) => text_of_members(alloc, members_of_query(by, query)),
    }
}
