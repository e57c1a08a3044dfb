ghost use Rattle.std.specs.Prelude.{◌≡◌, ℕ, ◌++◌, IfOk, [], codes, decimal, string_bytes};
ghost use Rattle.std.specs.Str.{IsUtf8};
ghost use Rattle.pana_calls.specs.declared.reply.Reply.TheVariants.{Did, Journal, Known, Pair, Refused};
ghost use Rattle.pana_wire.specs.Dump.{IsReadBack, entries_text};
ghost use Rattle.pana_wire.specs.Answer.{answer_text};
ghost use Rattle.pana_wire.specs.Reply.{reply_text};

use crate::entry_writing::write_entries;
use crate::json_writing::{
    begun_text, first_room, known_text, list_text, member_text, text_around, text_of, written_bytes,
};
use pana_calls::{Answer, Cause, Reply};
use pana_event::Rel;
use pana_journal::{Entry, ReportKind};
use std::alloc::{AllocError, Global};

/// The line that answers a report which isn't kept.
const NOT_KEPT: &str = "{\"code\":14,\"refused\":\"NotKept\"}";

/// The line that answers a call with this reply: an object in JSON with no blank, its names in byte order. `decode_dump`
/// reads the line of a `Journal` back as its entries, where there are at most 100, as a hall returns, or the line has at
/// most 1,048,576 bytes.
///
/// It takes memory for its text, and fails only where that runs out.
pub fn encode(alloc: Global, reply: &Reply) -> Result<String, AllocError>
    ensures text { IfOk result (λ text. string_bytes text ≡ reply_text reply.now) }
    ensures back { IfOk result (λ text. IsReadBack reply.now (string_bytes text)) }
{
    let bytes = encode_in(first_room(alloc)?, reply)?;
    Ok(text_of(bytes))
}

/// The bytes of the same text, in the room that is given.
fn encode_in(room: Vec<u8>, reply: &Reply) -> Result<Vec<u8>, AllocError>
    requires { room.items ≡ [] }
    ensures text { IfOk result (λ bytes. bytes.items ≡ reply_text reply.now) }
    ensures back { IfOk result (λ bytes. IsReadBack reply.now bytes.items) }
    ensures utf8 { IfOk result (λ bytes. IsUtf8 bytes.items) }
{
    match reply {
        Reply::Done { entry } => text_around(room, "{\"done\":", *entry, "}"),
        Reply::Did { kind, entry } => text_around(room, did_front(*kind), *entry, "}"),
        Reply::Known { copy } => copy_text(room, *copy),
        Reply::Families(rows) => list_text(room, "families", rows.as_slice()),
        Reply::Board(board) => member_text(room, "board", board),
        Reply::Stamps(stamps) => list_text(room, "stamps", stamps.as_slice()),
        Reply::Pair(rel) => known_text(room, pair_answer(*rel)),
        Reply::Holdings(holdings) => list_text(room, "holdings", holdings.as_slice()),
        Reply::At(standing) => member_text(room, "at", standing),
        Reply::Status(rows) => list_text(room, "status", rows.as_slice()),
        Reply::Journal(entries) => journal_text(room, entries.as_slice()),
        Reply::Counts(counts) => member_text(room, "counts", counts),
        Reply::Refused(cause) => refused_text(room, cause),
    }
}

/// The line that answers a call with this answer.
///
/// It takes memory as `encode` does, and fails only where that runs out.
pub fn encode_answer(alloc: Global, answer: &Answer) -> Result<String, AllocError>
    ensures { IfOk result (λ text. string_bytes text ≡ answer_text answer.now) }
{
    Ok(text_of(answer_bytes(alloc, answer)?))
}

/// The bytes of the same text.
pub(crate) fn answer_bytes(alloc: Global, answer: &Answer) -> Result<Vec<u8>, AllocError>
    ensures text { IfOk result (λ bytes. bytes.items ≡ answer_text answer.now) }
    ensures utf8 { IfOk result (λ bytes. IsUtf8 bytes.items) }
{
    encode_answer_in(alloc, first_room(alloc)?, answer)
}

/// The bytes of the same text, in the room that is given.
pub(crate) fn encode_answer_in(
    alloc: Global,
    room: Vec<u8>,
    answer: &Answer,
) -> Result<Vec<u8>, AllocError>
    requires { room.items ≡ [] }
    ensures text { IfOk result (λ bytes. bytes.items ≡ answer_text answer.now) }
    ensures utf8 { IfOk result (λ bytes. IsUtf8 bytes.items) }
{
    match answer {
        Answer::Given(reply) => encode_in(room, reply),
        Answer::NotKept => Ok(String::from_str(alloc, NOT_KEPT)?.into_bytes()),
    }
}

// What stands before the number in the line that answers a sighting, by the kind of the report that was made.
#[tactic(auto, unfolding(crate::specs::Reply::reply_text, crate::specs::Reply::reply_data, json::specs::Print::escape_byte))]
fn did_front(kind: ReportKind) -> &'static str
    ensures { (entry : ℕ) → reply_text (Did kind entry) ≡ result.now ++ (decimal entry ++ codes "}") }
{
    match kind {
        ReportKind::Register => "{\"did\":\"register\",\"done\":",
        ReportKind::Duplicate => "{\"did\":\"duplicate\",\"done\":",
        ReportKind::Edit => "{\"did\":\"edit\",\"done\":",
        ReportKind::Reconcile => "{\"did\":\"reconcile\",\"done\":",
        ReportKind::Merge => "{\"did\":\"merge\",\"done\":",
        ReportKind::Relocate => "{\"did\":\"relocate\",\"done\":",
        ReportKind::Remove => "{\"did\":\"remove\",\"done\":",
        ReportKind::Note => "{\"did\":\"note\",\"done\":",
        ReportKind::Confirm => "{\"did\":\"confirm\",\"done\":",
        ReportKind::Withdraw => "{\"did\":\"withdraw\",\"done\":",
    }
}

// The line that answers how two copies relate.
#[tactic(auto, unfolding(crate::specs::Reply::reply_text, crate::specs::Reply::reply_data, json::specs::Print::escape_byte))]
fn pair_answer(rel: Rel) -> &'static str
    ensures { result.now ≡ reply_text (Pair rel) }
{
    match rel {
        Rel::Equal => "{\"pair\":\"Equal\"}",
        Rel::Older => "{\"pair\":\"Older\"}",
        Rel::Newer => "{\"pair\":\"Newer\"}",
        Rel::Conflict => "{\"pair\":\"Conflict\"}",
    }
}

#[tactic(auto, unfolding(crate::specs::Reply::reply_text, crate::specs::Reply::reply_data, json::specs::Print::escape_byte))]
fn copy_text(room: Vec<u8>, copy: Option<u64>) -> Result<Vec<u8>, AllocError>
    requires { room.items ≡ [] }
    ensures text { IfOk result (λ bytes. bytes.items ≡ reply_text (Known copy)) }
    ensures utf8 { IfOk result (λ bytes. IsUtf8 bytes.items) }
{
    match copy {
        Some(copy) => text_around(room, "{\"known\":", copy, "}"),
        None => known_text(room, "{\"known\":null}"),
    }
}

#[tactic(auto, unfolding(crate::specs::Reply::reply_text, crate::specs::Reply::reply_data, crate::specs::Reply::refused_data, json::specs::Print::escape_byte))]
fn refused_text(room: Vec<u8>, cause: &Cause) -> Result<Vec<u8>, AllocError>
    requires { room.items ≡ [] }
    ensures text { IfOk result (λ bytes. bytes.items ≡ reply_text (Refused cause.now)) }
    ensures utf8 { IfOk result (λ bytes. IsUtf8 bytes.items) }
{
    let text = match cause {
        Cause::UnknownCopy(copy) => {
            let behind = ",\"refused\":\"UnknownCopy\"}";
            return text_around(room, "{\"code\":2,\"copy\":", *copy, behind);
        }
        Cause::PlaceTaken(copy) => {
            let behind = ",\"refused\":\"PlaceTaken\"}";
            return text_around(room, "{\"code\":6,\"copy\":", *copy, behind);
        }
        Cause::JournalFull => "{\"code\":1,\"refused\":\"JournalFull\"}",
        Cause::SameCopy => "{\"code\":3,\"refused\":\"SameCopy\"}",
        Cause::OtherFamily => "{\"code\":4,\"refused\":\"OtherFamily\"}",
        Cause::FamilyFull => "{\"code\":7,\"refused\":\"FamilyFull\"}",
        Cause::TooDeep => "{\"code\":8,\"refused\":\"TooDeep\"}",
        Cause::OutOfMemory => "{\"code\":9,\"refused\":\"OutOfMemory\"}",
        Cause::UnknownEntry => "{\"code\":10,\"refused\":\"UnknownEntry\"}",
        Cause::NotYours => "{\"code\":11,\"refused\":\"NotYours\"}",
        Cause::Settled => "{\"code\":12,\"refused\":\"Settled\"}",
        Cause::UnknownFamily => "{\"code\":13,\"refused\":\"UnknownFamily\"}",
    };
    known_text(room, text)
}

fn journal_text(room: Vec<u8>, entries: &[Entry]) -> Result<Vec<u8>, AllocError>
    requires { room.items ≡ [] }
    ensures text { IfOk result (λ bytes. bytes.items ≡ entries_text entries.now) }
    ensures back { IfOk result (λ bytes. IsReadBack (Journal entries.now) bytes.items) }
    ensures utf8 { IfOk result (λ bytes. IsUtf8 bytes.items) }
{
    let mut out = begun_text(room);
    out.begin_object()?;
    out.key("entries")?;
    write_entries(&mut out, entries)?;
    out.end_object()?;
    Ok(written_bytes(out))
}
