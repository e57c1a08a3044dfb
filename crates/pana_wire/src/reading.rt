ghost use Rattle.std.specs.Prelude.{◌≡◌, ◌≢◌, None, [], false, IfErr, OnOk};
ghost use Rattle.serde_json.specs.Read.{read};
ghost use Rattle.serde_json.specs.View.{view};
ghost use Rattle.pana_wire.specs.declared.field.Field.TheVariants.{Device, Path};
ghost use Rattle.pana_wire.specs.declared.word.Word.TheVariants.{Duplicate, Register, Relocate};
ghost use Rattle.pana_wire.specs.Line.{Gives, IsText, Shows, text_within, data_in, object_in, device_in, path_in, number_in, sum_in, journal_query, number_or_none, seconds_in, seconds_or_none, device_or_none, sum_or_none, place_in, word_in, numbered_in, report_in, asked_in, call_in, message_in, line_says};

use crate::fault::WireFault;
use crate::field::Field;
use crate::flat_object::{FlatObject, read_flat};
use crate::object::Object;
use crate::word::{Word, word_of};
use json::{Reader, Scratch};
use pana_calls::{Call, Message, Query, Sighting};
use pana_copies::{CopyPath, DeviceName, NameFault, Place, Sum};
use pana_journal::Report;
use serde_json::Value;
use std::alloc::Global;

/// The longest line that is read, in bytes.
const LONGEST_LINE: usize = 65536;

/// For how many seconds at most an answer may be waited for.
const LONGEST_WAIT: u64 = 3600;

/// How deep the arrays and objects of a value may nest.
const DEEPEST: usize = 127;

/// Reads lines, with memory that is kept from line to line.
pub struct LineReader {
    pub(crate) alloc: Global,
    pub(crate) scratch: Scratch<Global>,
    // For the texts of answers.
    pub(crate) room: Vec<u8>,
}

impl Drop for LineReader {
    fn drop(self) {
        let LineReader {
            alloc: _,
            scratch: _,
            room: _,
        } = self;
    }
}

impl LineReader {
    /// Takes no memory.
    pub fn new(alloc: Global) -> LineReader {
        LineReader {
            alloc,
            scratch: Scratch::new(alloc),
            room: Vec::new(alloc),
        }
    }

    /// Room for a text: that of the last one that was given back. Takes no memory.
    pub(crate) fn take_room(&mut self) -> Vec<u8>
        ensures { result.items ≡ [] }
    {
        let mut room = std::mem::replace(&mut self.room, Vec::new(self.alloc));
        room.clear();
        room
    }

    /// Keeps the room of a text for the next one. Takes no memory.
    pub(crate) fn give_back(&mut self, text: Vec<u8>) {
        self.room = text;
    }

    /// Where memory is taken from.
    pub fn alloc(&self) -> Global {
        self.alloc
    }

    /// What a line says, or its first fault, as `decode` returns it.
    ///
    /// It keeps as many bytes as the longest line that it has read.
    #[tactic(auto, unfolding(crate::specs::Line::line_says, crate::specs::Line::text_in))]
    pub fn read(&mut self, line: &[u8]) -> Result<Message, WireFault>
        ensures exact { Gives result (line_says line.now) }
        ensures memory { IfErr result (λ fault. fault ≡ WireFault.OutOfMemory → IsText line.now) }
    {
        let LineReader { alloc, scratch, .. } = self;
        let text = text_within(line, LONGEST_LINE)?;
        let mut object = FlatObject::new(*alloc);
        match read_flat(text, scratch, &mut object) {
            Some(()) => message_in(*alloc, &object),
            None => {
                drop(object);
                read_value(*alloc, text, scratch)
            }
        }
    }
}

/// What a line of text says, or its first fault: by the value that it is, since it is no flat object, or too little memory is there to
/// find out.
// Apart, as what is rare: a function blanks at its head the places of all that is inlined in it.
#[tactic(auto, unfolding(crate::specs::Line::line_says))]
#[inline(never)]
fn read_value(
    alloc: Global,
    text: &str,
    scratch: &mut Scratch<Global>,
) -> Result<Message, WireFault>
    requires { IsText text.now }
    ensures { Gives result (line_says text.now) }
{
    if !may_be_json(text, scratch) {
        return Err(WireFault::NotJson);
    }
    let value = value_in(alloc, text)?;
    check_object(&value)?;
    message_in(alloc, &value)
}

/// Whether a text may be JSON. It makes no value, which takes more time and memory.
fn may_be_json(text: &str, scratch: &mut Scratch<Global>) -> bool
    ensures { result ≡ false → read text.now ≡ None }
{
    let Ok(mut reader) = Reader::new(text, scratch) else {
        return true;
    };
    match reader.skip_value(DEEPEST) {
        Ok(()) => reader.next().is_none(),
        Err(_) => false,
    }
}

/// What a line says, or its first fault.
///
/// The faults are those of `WireFault`, in its order; the fields are tried in the order `by`, `do`, and then those of
/// the word, as `fields_of` has them in specs/Word.antt. It takes memory for as many bytes as the line has, for a list of the members of
/// a flat object, or for the value that another line is, and for the names in it; where that runs out the fault is
/// `OutOfMemory`. To find a line too long, or not UTF-8, takes none.
pub fn decode(alloc: Global, line: &[u8]) -> Result<Message, WireFault>
    ensures exact { Gives result (line_says line.now) }
    ensures memory { IfErr result (λ fault. fault ≡ WireFault.OutOfMemory → IsText line.now) }
{
    let mut lines = LineReader::new(alloc);
    lines.read(line)
}

pub fn text_within(bytes: &[u8], most: usize) -> Result<&str, WireFault>
    ensures exact { Shows (λ text. text.now) result (text_within most bytes.now) }
    ensures text { OnOk result (text_within most bytes.now ≡ Ok bytes.now) }
    ensures memory { IfErr result (λ fault. fault ≢ WireFault.OutOfMemory) }
{
    if bytes.len() > most {
        return Err(WireFault::TooLong);
    }
    match std::str::from_utf8(bytes) {
        Ok(text) => Ok(text),
        Err(_) => Err(WireFault::NotUtf8),
    }
}

#[tactic(auto, unfolding(crate::specs::Line::data_in))]
pub fn value_in(alloc: Global, text: &str) -> Result<Value, WireFault>
    ensures { Shows view result (data_in text.now) }
{
    match Value::from_str(alloc, text) {
        Ok(value) => Ok(value),
        Err(error) if error.is_memory() => Err(WireFault::OutOfMemory),
        Err(_) => Err(WireFault::NotJson),
    }
}

#[tactic(auto, unfolding(crate::specs::Line::object_in))]
pub fn check_object(value: &Value) -> Result<(), WireFault>
    ensures { Shows (λ _. view value.now) result (object_in (view value.now)) }
{
    if value.is_object() {
        Ok(())
    } else {
        Err(WireFault::NotObject)
    }
}

#[tactic(auto, unfolding(crate::specs::Line::message_in))]
fn message_in<O: Object>(alloc: Global, object: &O) -> Result<Message, WireFault>
    ensures { Gives result (message_in (O.json object.now)) }
{
    let by = device_in(Field::By, object)?;
    let word = word_in(object)?;
    let call = call_in(alloc, word, object)?;
    Ok(Message { by, call })
}

#[tactic(auto, unfolding(crate::specs::Line::word_in))]
pub fn word_in<O: Object>(object: &O) -> Result<Word, WireFault>
    ensures { Gives result (word_in (O.json object.now)) }
{
    let Some(text) = object.text(Field::Do) else {
        return Err(WireFault::BadField(Field::Do));
    };
    match word_of(text) {
        Some(word) => Ok(word),
        None => Err(WireFault::BadField(Field::Do)),
    }
}

#[tactic(auto, unfolding(crate::specs::Line::call_in, crate::specs::Line::asked_in))]
fn call_in<O: Object>(alloc: Global, word: Word, object: &O) -> Result<Call, WireFault>
    ensures { Gives result (call_in word (O.json object.now)) }
{
    match word {
        Word::Register
        | Word::Duplicate
        | Word::Edit
        | Word::Reconcile
        | Word::Merge
        | Word::Relocate
        | Word::Remove
        | Word::Note
        | Word::Confirm
        | Word::Withdraw => Ok(Call::Report(report_in(alloc, word, object)?)),
        _ => other_call_in(alloc, word, object),
    }
}

// A call that most often is no report: apart, as what is rare.
#[tactic(auto, unfolding(crate::specs::Line::call_in))]
#[inline(never)]
fn other_call_in<O: Object>(alloc: Global, word: Word, object: &O) -> Result<Call, WireFault>
    ensures { Gives result (call_in word (O.json object.now)) }
{
    match word {
        Word::Found => Ok(Call::Sighting(Sighting::Found {
            place: place_in(alloc, object)?,
            sum: sum_in(alloc, Field::Sum, object)?,
        })),
        Word::Missing => Ok(Call::Sighting(Sighting::Missing {
            place: place_in(alloc, object)?,
        })),
        _ => asked_in(alloc, word, object),
    }
}

// A query, or else a report.
#[tactic(auto, unfolding(crate::specs::Line::asked_in))]
fn asked_in<O: Object>(alloc: Global, word: Word, object: &O) -> Result<Call, WireFault>
    ensures { Gives result (asked_in word (O.json object.now)) }
{
    let query = match word {
        Word::Families => Query::Families,
        Word::Board => Query::Board {
            family: number_in(Field::Family, object)?,
        },
        Word::Stamps => Query::Stamps {
            family: number_in(Field::Family, object)?,
        },
        Word::Pair => Query::Pair {
            a: number_in(Field::A, object)?,
            b: number_in(Field::B, object)?,
        },
        Word::Holdings => Query::Holdings {
            device: device_in(Field::Device, object)?,
            from: number_or_none(Field::From, object)?,
        },
        Word::At => Query::At {
            place: place_in(alloc, object)?,
        },
        Word::Status => Query::Status {
            device: device_or_none(Field::Device, object)?,
            from: number_in(Field::From, object)?,
        },
        Word::Journal => journal_query(
            number_in(Field::From, object)?,
            seconds_or_none(Field::Wait, object)?,
        ),
        Word::Counts => Query::Counts,
        _ => return Ok(Call::Report(report_in(alloc, word, object)?)),
    };
    Ok(Call::Query(query))
}

/// The question for the entries from a number on, for which the answer may be waited for so many seconds.
fn journal_query(entry: u64, wait: Option<u64>) -> Query
    ensures { result ≡ journal_query entry wait }
{
    match wait {
        Some(seconds) => Query::JournalAwaited { entry, seconds },
        None => Query::JournalFrom { entry },
    }
}

#[tactic(auto, unfolding(crate::specs::Line::report_in))]
pub fn report_in<O: Object>(alloc: Global, word: Word, object: &O) -> Result<Report, WireFault>
    ensures { Gives result (report_in word (O.json object.now)) }
{
    match word {
        Word::Register => register_in(alloc, object),
        Word::Duplicate => duplicate_in(alloc, object),
        Word::Relocate => relocate_in(alloc, object),
        _ => numbered_in(alloc, word, object),
    }
}

// These three are apart, since each report by `report_in` would blank their places.
#[tactic(auto, unfolding(crate::specs::Line::report_in))]
fn register_in<O: Object>(alloc: Global, object: &O) -> Result<Report, WireFault>
    ensures { Gives result (report_in Register (O.json object.now)) }
{
    Ok(Report::Register {
        place: place_in(alloc, object)?,
        sum: sum_or_none(alloc, Field::Sum, object)?,
    })
}

#[tactic(auto, unfolding(crate::specs::Line::report_in))]
fn duplicate_in<O: Object>(alloc: Global, object: &O) -> Result<Report, WireFault>
    ensures { Gives result (report_in Duplicate (O.json object.now)) }
{
    Ok(Report::Duplicate {
        copy: number_in(Field::Copy, object)?,
        place: place_in(alloc, object)?,
        sum: sum_or_none(alloc, Field::Sum, object)?,
    })
}

#[tactic(auto, unfolding(crate::specs::Line::report_in))]
fn relocate_in<O: Object>(alloc: Global, object: &O) -> Result<Report, WireFault>
    ensures { Gives result (report_in Relocate (O.json object.now)) }
{
    Ok(Report::Relocate {
        copy: number_in(Field::Copy, object)?,
        place: place_in(alloc, object)?,
    })
}

// A report that has no place.
#[tactic(auto, unfolding(crate::specs::Line::numbered_in))]
fn numbered_in<O: Object>(alloc: Global, word: Word, object: &O) -> Result<Report, WireFault>
    ensures { Gives result (numbered_in word (O.json object.now)) }
{
    match word {
        Word::Edit => Ok(Report::Edit {
            copy: number_in(Field::Copy, object)?,
            sum: sum_or_none(alloc, Field::Sum, object)?,
        }),
        Word::Reconcile => Ok(Report::Reconcile {
            a: number_in(Field::A, object)?,
            b: number_in(Field::B, object)?,
            sum: sum_or_none(alloc, Field::Sum, object)?,
        }),
        Word::Merge => Ok(Report::Merge {
            a: number_in(Field::A, object)?,
            b: number_in(Field::B, object)?,
            sum: sum_or_none(alloc, Field::Sum, object)?,
        }),
        Word::Remove => Ok(Report::Remove {
            copy: number_in(Field::Copy, object)?,
            heir: number_or_none(Field::Heir, object)?,
        }),
        Word::Note => Ok(Report::Note {
            copy: number_in(Field::Copy, object)?,
            sum: sum_in(alloc, Field::Sum, object)?,
        }),
        Word::Confirm => Ok(Report::Confirm {
            entry: number_in(Field::Entry, object)?,
        }),
        Word::Withdraw => Ok(Report::Withdraw {
            entry: number_in(Field::Entry, object)?,
        }),
        _ => Err(WireFault::BadField(Field::Do)),
    }
}

#[tactic(auto, unfolding(crate::specs::Line::place_in))]
fn place_in<O: Object>(alloc: Global, object: &O) -> Result<Place, WireFault>
    ensures { Gives result (place_in Device Path (O.json object.now)) }
{
    let device = device_in(Field::Device, object)?;
    let path = path_in(alloc, Field::Path, object)?;
    Ok(Place { device, path })
}

#[tactic(auto, unfolding(crate::specs::Line::device_in))]
pub fn device_in<O: Object>(field: Field, object: &O) -> Result<DeviceName, WireFault>
    ensures { Gives result (device_in field (O.json object.now)) }
{
    let Some(text) = object.text(field) else {
        return Err(WireFault::BadField(field));
    };
    DeviceName::new(text).map_err(|_| WireFault::BadField(field))
}

#[tactic(auto, unfolding(crate::specs::Line::path_in))]
fn path_in<O: Object>(alloc: Global, field: Field, object: &O) -> Result<CopyPath, WireFault>
    ensures { Gives result (path_in field (O.json object.now)) }
{
    let Some(text) = object.text(field) else {
        return Err(WireFault::BadField(field));
    };
    match CopyPath::new(alloc, text) {
        Ok(path) => Ok(path),
        Err(NameFault::BadPath) => Err(WireFault::BadField(field)),
        Err(_) => Err(WireFault::OutOfMemory),
    }
}

#[tactic(auto, unfolding(crate::specs::Line::number_in))]
pub fn number_in<O: Object>(field: Field, object: &O) -> Result<u64, WireFault>
    ensures { Gives result (number_in field (O.json object.now)) }
{
    match object.number(field) {
        Some(number) => Ok(number),
        None => Err(WireFault::BadField(field)),
    }
}

#[tactic(auto, unfolding(crate::specs::Line::seconds_in))]
fn seconds_in<O: Object>(field: Field, object: &O) -> Result<u64, WireFault>
    ensures { Gives result (seconds_in field (O.json object.now)) }
{
    match object.number(field) {
        Some(seconds) if seconds <= LONGEST_WAIT => Ok(seconds),
        _ => Err(WireFault::BadField(field)),
    }
}

#[tactic(auto, unfolding(crate::specs::Line::sum_in))]
fn sum_in<O: Object>(alloc: Global, field: Field, object: &O) -> Result<Sum, WireFault>
    ensures { Gives result (sum_in field (O.json object.now)) }
{
    let Some(text) = object.text(field) else {
        return Err(WireFault::BadField(field));
    };
    match Sum::new(alloc, text) {
        Ok(sum) => Ok(sum),
        Err(NameFault::BadSum) => Err(WireFault::BadField(field)),
        Err(_) => Err(WireFault::OutOfMemory),
    }
}

#[tactic(auto, unfolding(crate::specs::Line::number_or_none))]
fn number_or_none<O: Object>(field: Field, object: &O) -> Result<Option<u64>, WireFault>
    ensures { Gives result (number_or_none field (O.json object.now)) }
{
    if object.is_given(field) {
        Ok(Some(number_in(field, object)?))
    } else {
        Ok(None)
    }
}

#[tactic(auto, unfolding(crate::specs::Line::seconds_or_none))]
fn seconds_or_none<O: Object>(field: Field, object: &O) -> Result<Option<u64>, WireFault>
    ensures { Gives result (seconds_or_none field (O.json object.now)) }
{
    if object.is_given(field) {
        Ok(Some(seconds_in(field, object)?))
    } else {
        Ok(None)
    }
}

#[tactic(auto, unfolding(crate::specs::Line::device_or_none))]
fn device_or_none<O: Object>(field: Field, object: &O) -> Result<Option<DeviceName>, WireFault>
    ensures { Gives result (device_or_none field (O.json object.now)) }
{
    if object.is_given(field) {
        Ok(Some(device_in(field, object)?))
    } else {
        Ok(None)
    }
}

#[tactic(auto, unfolding(crate::specs::Line::sum_or_none))]
fn sum_or_none<O: Object>(alloc: Global, field: Field, object: &O) -> Result<Option<Sum>, WireFault>
    ensures { Gives result (sum_or_none field (O.json object.now)) }
{
    if object.is_given(field) {
        Ok(Some(sum_in(alloc, field, object)?))
    } else {
        Ok(None)
    }
}
