//! Entries in JSON, and lists of them that are read token by token.
ghost use Rattle.std.specs.Prelude.{◌≡◌, ◌∷◌, IfSome, IsTrue, Ok, not};
ghost use Rattle.std.specs.List.{list_all};
ghost use Rattle.std.specs.Str.{bytes_eq};
ghost use Rattle.json.specs.Token.{begin_array, begin_object, end_array, key};
ghost use Rattle.pana_wire.specs.declared.field.Field.TheVariants.{Entries};
ghost use Rattle.pana_wire.specs.Field.{field_name};
ghost use Rattle.pana_wire.specs.Line.{Gives};
ghost use Rattle.pana_wire.specs.Dump.{entry_in};
ghost use Rattle.pana_wire.specs.inner.FlatEntries.{AreListed, text_says};

use crate::fault::WireFault;
use crate::field::Field;
use crate::flat_object::{FlatObject, Member, Members, read_members};
use crate::object::Object;
use crate::reading::{device_in, number_in, report_in, word_in};
use json::{Reader, Scratch, Token};
use pana_journal::{Entry, EntryList};
use std::alloc::Global;

#[tactic(auto, unfolding(crate::specs::Dump::entry_in))]
pub fn entry_in<O: Object>(alloc: Global, object: &O) -> Result<Entry, WireFault>
    ensures { Gives result (entry_in (O.json object.now)) }
{
    let number = number_in(Field::Number, object)?;
    let by = device_in(Field::By, object)?;
    let word = word_in(object)?;
    let report = report_in(alloc, word, object)?;
    Ok(Entry { number, by, report })
}

/// The entries of a line, where its first member is the list of them, each is a flat object, and what else the line has is
/// flat. None where it isn't so, where an entry has a fault, or where memory runs out.
pub fn flat_entries<'a>(
    alloc: Global,
    text: &'a str,
    scratch: &'a mut Scratch<Global>,
) -> Option<EntryList>
    ensures { IfSome result (λ entries. text_says text.now ≡ Ok entries) }
{
    let mut reader = Reader::new(text, scratch).ok()?;
    if !opens_entries(&mut reader) {
        return None;
    }
    let entries = listed_in(alloc, &mut reader)?;
    let mut others = Members::new(alloc);
    read_members(&mut reader, &mut others)?;
    if !lack_entries(others.as_slice()) {
        return None;
    }
    match reader.next() {
        Some(_) => None,
        None => Some(entries),
    }
}

// What stands before the entries was there, and is taken.
fn opens_entries<'a>(reader: &mut Reader<'a>) -> bool
    ensures { IsTrue result → reader.old ≡ begin_object ∷ key (field_name Entries) ∷ begin_array ∷ reader.new }
{
    let Some(Token::BeginObject) = reader.next() else {
        return false;
    };
    let Some(Token::Key(name)) = reader.next() else {
        return false;
    };
    let Some(Token::BeginArray) = reader.next() else {
        return false;
    };
    name == Field::Entries.name()
}

// The entries up to the bracket behind the last. All are read by one list of members, since a list is large to be made.
fn listed_in<'a>(alloc: Global, reader: &mut Reader<'a>) -> Option<EntryList>
    ensures { IfSome result (AreListed reader.old (end_array ∷ reader.new)) }
{
    let mut object = FlatObject::new(alloc);
    let mut entries = Vec::new(alloc);
    loop {
        match reader.next()? {
            Token::BeginObject => {
                object.members.clear();
                read_members(reader, &mut object.members)?;
                let entry = entry_in(alloc, &object).ok()?;
                entries.push(entry).ok()?;
            }
            Token::EndArray => return Some(EntryList::from_vec(entries)),
            _ => return None,
        }
    }
}

fn lack_entries(members: &[Member<'_>]) -> bool
    ensures { result ≡ list_all (λ member. not (bytes_eq member.name.now (field_name Entries))) members.now }
{
    members
        .iter()
        .all(|member| member.name != Field::Entries.name())
}
