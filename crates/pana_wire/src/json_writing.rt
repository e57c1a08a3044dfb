//! Texts in JSON, token by token, with no blank.
ghost use Rattle.std.specs.Prelude.{◌≡◌, ◌<◌, ◌^◌, ◌∷◌, [], ◌++◌, decimal, IfOk, IfSome, OnOk, option_copied, map, string_bytes};
ghost use Rattle.std.specs.Str.{IsUtf8};
ghost use Rattle.json.specs.Print.{print};
ghost use Rattle.json.specs.Token as Token;
ghost use Rattle.json.specs.Token.{key};
ghost use Rattle.json.specs.Tree.{json_tokens};
ghost use Rattle.serde_json.specs.Data.{array, member, no_members, object};
ghost use Rattle.serde_json.specs.View.{items_of};
ghost use Rattle.serde_json.specs.Written.{compact_text, outline};
ghost use Rattle.pana_wire.specs.inner.Names.{IsSumOrNone};
ghost use Rattle.pana_wire.specs.inner.Pieces.{number_tokens, text_tokens};

use itoa::Buffer;
use json::Writer;
use pana_copies::Sum;
use std::alloc::{AllocError, Global};

/// What has a text in JSON.
pub(crate) trait WriteJson {
    ghost use Rattle.std.specs.Prelude.{◌≡◌, ◌++◌, OnOk};
    ghost use Rattle.json.specs.Tree.{json_tokens};
    ghost use Rattle.serde_json.specs.Data.{Data};
    ghost use Rattle.serde_json.specs.Written.{compact_text, outline};

    // The value that it stands for.
    ghost json: { Self → Data };

    /// Writes its tokens behind what is written. Fails only where memory runs out.
    fn write(&self, out: &mut Writer<Global>) -> Result<(), AllocError>
        ensures tokens { OnOk result (out.new.tokens ≡ out.old.tokens ++ json_tokens (outline (json self.now))) }
        ensures before { OnOk result (out.new.before ≡ out.old.before) };
}

impl WriteJson for u64 {
    ghost use Rattle.pana_wire.specs.Report.{number_data};

    ghost json = { number_data };

    fn write(&self, out: &mut Writer<Global>) -> Result<(), AllocError> {
        out.u64(*self)
    }
}

impl<T: WriteJson> WriteJson for Option<T> {
    ghost use Rattle.pana_wire.specs.inner.Pieces.{data_or_null};

    ghost json = { data_or_null T.json };

    fn write(&self, out: &mut Writer<Global>) -> Result<(), AllocError> {
        match self {
            Some(content) => content.write(out),
            None => out.null(),
        }
    }
}

/// Writes a member: its name and its content. Fails only where memory runs out, as those below.
///
/// These are inlined, so that each name is a constant where it is written: then LLVM can inline the kit's `key` too, and nothing is
/// looked for that is escaped in it.
#[inline(always)]
pub(crate) fn write_number(
    out: &mut Writer<Global>,
    name: &str,
    number: u64,
) -> Result<(), AllocError>
    ensures tokens { OnOk result (out.new.tokens ≡ out.old.tokens ++ key name.now ∷ Token.number (decimal number) ∷ []) }
    ensures before { OnOk result (out.new.before ≡ out.old.before) }
    ensures number { number < 2 ^ 64 }
{
    out.key(name)?;
    out.u64(number)
}

/// Writes a number, as the kit's `u64` does, but inlined where it is written. Fails only where memory runs out.
#[inline(always)]
fn write_digits(out: &mut Writer<Global>, number: u64) -> Result<(), AllocError>
    ensures tokens { OnOk result (out.new.tokens ≡ out.old.tokens ++ Token.number (decimal number) ∷ []) }
    ensures before { OnOk result (out.new.before ≡ out.old.before) }
{
    let mut digits = Buffer::new();
    out.number(digits.format(number))
}

/// As `write_number`, in a row of which an answer has many: there it pays to inline the digits too.
#[inline(always)]
pub(crate) fn write_row_number(
    out: &mut Writer<Global>,
    name: &str,
    number: u64,
) -> Result<(), AllocError>
    ensures tokens { OnOk result (out.new.tokens ≡ out.old.tokens ++ key name.now ∷ Token.number (decimal number) ∷ []) }
    ensures before { OnOk result (out.new.before ≡ out.old.before) }
    ensures number { number < 2 ^ 64 }
{
    out.key(name)?;
    write_digits(out, number)
}

/// The text of a number of one digit.
fn digit(number: u64) -> Option<&'static str>
    ensures { IfSome result (λ text. text.now ≡ decimal number) }
{
    match number {
        0 => Some("0"),
        1 => Some("1"),
        2 => Some("2"),
        3 => Some("3"),
        4 => Some("4"),
        5 => Some("5"),
        6 => Some("6"),
        7 => Some("7"),
        8 => Some("8"),
        9 => Some("9"),
        _ => None,
    }
}

/// The same of a number that most often has one digit, which is written faster.
#[inline(always)]
pub(crate) fn write_count(
    out: &mut Writer<Global>,
    name: &str,
    count: u64,
) -> Result<(), AllocError>
    ensures tokens { OnOk result (out.new.tokens ≡ out.old.tokens ++ key name.now ∷ Token.number (decimal count) ∷ []) }
    ensures before { OnOk result (out.new.before ≡ out.old.before) }
    ensures number { count < 2 ^ 64 }
{
    out.key(name)?;
    match digit(count) {
        Some(text) => out.number(text),
        None => write_digits(out, count),
    }
}

/// Writes a member where its content is given, and else nothing.
#[inline(always)]
pub(crate) fn write_number_if_given(
    out: &mut Writer<Global>,
    name: &str,
    number: Option<u64>,
) -> Result<(), AllocError>
    ensures tokens { OnOk result (out.new.tokens ≡ out.old.tokens ++ number_tokens name.now number) }
    ensures before { OnOk result (out.new.before ≡ out.old.before) }
    ensures number { OnOk result (IfSome number (λ n. n < 2 ^ 64)) }
{
    match number {
        Some(number) => write_number(out, name, number),
        None => Ok(()),
    }
}

#[inline(always)]
pub(crate) fn write_text(out: &mut Writer<Global>, name: &str, text: &str) -> Result<(), AllocError>
    ensures tokens { OnOk result (out.new.tokens ≡ out.old.tokens ++ key name.now ∷ Token.string text.now ∷ []) }
    ensures before { OnOk result (out.new.before ≡ out.old.before) }
{
    out.key(name)?;
    out.string(text)
}

#[inline(always)]
pub(crate) fn write_flag(out: &mut Writer<Global>, name: &str, flag: bool) -> Result<(), AllocError>
    ensures tokens { OnOk result (out.new.tokens ≡ out.old.tokens ++ key name.now ∷ Token.boolean flag ∷ []) }
    ensures before { OnOk result (out.new.before ≡ out.old.before) }
{
    out.key(name)?;
    out.boolean(flag)
}

/// Writes a member where its content is given, and else nothing.
#[inline(always)]
pub(crate) fn write_sum(
    out: &mut Writer<Global>,
    name: &str,
    sum: Option<&Sum>,
) -> Result<(), AllocError>
    ensures tokens { OnOk result (out.new.tokens ≡ out.old.tokens ++ text_tokens name.now (option_copied sum.entry)) }
    ensures before { OnOk result (out.new.before ≡ out.old.before) }
    ensures sum { OnOk result (IsSumOrNone (option_copied sum.entry)) }
{
    match sum {
        Some(sum) => write_text(out, name, sum.digits().as_str()),
        None => Ok(()),
    }
}

/// Writes an array of these. Fails only where memory runs out.
pub(crate) fn write_list<T: WriteJson>(
    out: &mut Writer<Global>,
    items: &[T],
) -> Result<(), AllocError>
    ensures tokens { OnOk result (out.new.tokens ≡ out.old.tokens ++ json_tokens (outline (array (items_of (map T.json items.now))))) }
    ensures before { OnOk result (out.new.before ≡ out.old.before) }
{
    out.begin_array()?;
    for item in items {
        item.write(out)?;
    }
    out.end_array()
}

/// How many bytes a text has room for at first: most have no more.
const FIRST_ROOM: usize = 128;

/// Room for most texts. Fails only where memory runs out.
pub(crate) fn first_room(alloc: Global) -> Result<Vec<u8>, AllocError>
    ensures { IfOk result (λ room. room.items ≡ []) }
{
    Vec::with_capacity(alloc, FIRST_ROOM)
}

/// No token yet, in the room that is given. Takes no memory.
pub(crate) fn begun_text(room: Vec<u8>) -> Writer<Global>
    requires { room.items ≡ [] }
    ensures tokens { result.tokens ≡ [] }
    ensures before { result.before ≡ [] }
{
    Writer::new(room)
}

/// The text of an object with one member, in the room that is given. Fails only where memory runs out.
pub(crate) fn member_text<T: WriteJson>(
    room: Vec<u8>,
    name: &str,
    content: &T,
) -> Result<Vec<u8>, AllocError>
    requires { room.items ≡ [] }
    ensures text { IfOk result (λ bytes. bytes.items ≡ compact_text (object (member name.now (T.json content.now) no_members))) }
    ensures utf8 { IfOk result (λ bytes. IsUtf8 bytes.items) }
{
    let mut out = begun_text(room);
    out.begin_object()?;
    out.key(name)?;
    content.write(&mut out)?;
    out.end_object()?;
    Ok(written_bytes(out))
}

/// A text that is known before, in the room that is given. Fails only where memory runs out.
#[inline(always)]
pub(crate) fn known_text(room: Vec<u8>, text: &str) -> Result<Vec<u8>, AllocError>
    requires { room.items ≡ [] }
    ensures text { IfOk result (λ bytes. bytes.items ≡ text.now) }
    ensures utf8 { IfOk result (λ bytes. IsUtf8 bytes.items) }
{
    let mut bytes = room;
    bytes.extend_from_slice(text.as_bytes())?;
    Ok(bytes)
}

/// A text of which all but one number is known before, in the room that is given. Fails only where memory runs out.
#[inline(always)]
pub(crate) fn text_around(
    room: Vec<u8>,
    before: &str,
    number: u64,
    behind: &str,
) -> Result<Vec<u8>, AllocError>
    requires { room.items ≡ [] }
    ensures text { IfOk result (λ bytes. bytes.items ≡ before.now ++ (decimal number ++ behind.now)) }
    ensures utf8 { IfOk result (λ bytes. IsUtf8 bytes.items) }
{
    let mut bytes = room;
    let mut digits = Buffer::new();
    bytes.extend_from_slice(before.as_bytes())?;
    bytes.extend_from_slice(digits.format(number).as_bytes())?;
    bytes.extend_from_slice(behind.as_bytes())?;
    Ok(bytes)
}

/// The text of an object whose one member is an array of these, in the room that is given. Fails only where memory runs out.
pub(crate) fn list_text<T: WriteJson>(
    room: Vec<u8>,
    name: &str,
    items: &[T],
) -> Result<Vec<u8>, AllocError>
    requires { room.items ≡ [] }
    ensures text { IfOk result (λ bytes. bytes.items ≡ compact_text (object (member name.now (array (items_of (map T.json items.now))) no_members))) }
    ensures utf8 { IfOk result (λ bytes. IsUtf8 bytes.items) }
{
    let mut out = begun_text(room);
    out.begin_object()?;
    out.key(name)?;
    write_list(&mut out, items)?;
    out.end_object()?;
    Ok(written_bytes(out))
}

/// The bytes that were written. Takes no memory.
pub(crate) fn written_bytes(out: Writer<Global>) -> Vec<u8>
    requires { out.before ≡ [] }
    ensures bytes { result.items ≡ print out.tokens }
    ensures utf8 { IsUtf8 result.items }
{
    out.into_inner()
}

/// The text that these bytes are. Takes no memory.
pub(crate) fn text_of(bytes: Vec<u8>) -> String
    requires { IsUtf8 bytes.items }
    ensures { string_bytes result ≡ bytes.items }
{
    match String::from_utf8(bytes) {
        Ok(text) => text,
        Err(_) => unreachable!(),
    }
}

/// What was written, as text. Takes no memory.
pub(crate) fn written_text(out: Writer<Global>) -> String
    requires { out.before ≡ [] }
    ensures { string_bytes result ≡ print out.tokens }
{
    text_of(written_bytes(out))
}
