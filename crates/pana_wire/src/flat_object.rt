//! Flat objects: objects in JSON of texts, whole numbers and `null` alone.
ghost use Rattle.std.specs.Prelude.{◌≡◌, [], ◌∷◌, IfSome, Some, option_map};
ghost use Rattle.json.specs.Print.{IsNumber};
ghost use Rattle.json.specs.Token.{end_object};
ghost use Rattle.serde_json.specs.Data.{unsigned};
ghost use Rattle.serde_json.specs.Find.{get};
ghost use Rattle.serde_json.specs.Read.{number_of, read};
ghost use Rattle.pana_wire.specs.inner.FlatObject.{AreSound, IsSound, content_data, content_token, flat_json, members_then};

use crate::field::Field;
use crate::object::Object;
use fast_float::parse_u64;
use json::{Reader, Scratch, Token};
use smallvec::SmallVec;
use std::alloc::Global;

/// What a member has.
#[derive(Clone, Copy)]
pub enum Content<'a> {
    // The first, so that a blank member is nearly all zeros, which are written faster.
    Null,
    Text(&'a str),
    /// A number of 64 bits: its digits, and the number.
    Number(&'a str, u64),
}

#[derive(Clone, Copy)]
pub struct Member<'a> {
    pub name: &'a str,
    pub content: Content<'a>,
}

impl<'a> Default for Member<'a> {
    fn default() -> Member<'a> {
        Member {
            name: "",
            content: Content::Null,
        }
    }
}

/// Members in their order. A line of most words has no more than there is room for in the list itself.
pub type Members<'a> = SmallVec<Member<'a>, 6>;

/// An object whose members have texts, numbers of 64 bits or `null`. Its texts are borrowed.
#[derive(Drop)]
pub struct FlatObject<'a> {
    pub members: Members<'a>,
}

impl<'a> FlatObject<'a> {
    /// No member yet. Takes no memory.
    pub fn new(alloc: Global) -> FlatObject<'a>
        ensures { result.members.items ≡ [] }
    {
        FlatObject {
            members: SmallVec::new(alloc),
        }
    }
}

/// Reads the members of the flat object that a text is; none where it isn't one, or memory doesn't suffice to read it.
// The object is lent, since it is large to be moved.
pub fn read_flat<'a>(
    text: &'a str,
    scratch: &'a mut Scratch<Global>,
    object: &mut FlatObject<'a>,
) -> Option<()>
    requires { object.old.members.items ≡ [] }
    ensures { IfSome result (λ _. read text.now ≡ Some (flat_json object.new)) }
{
    let mut reader = Reader::new(text, scratch).ok()?;
    let Some(Token::BeginObject) = reader.next() else {
        return None;
    };
    read_members(&mut reader, &mut object.members)?;
    match reader.next() {
        Some(_) => None,
        None => Some(()),
    }
}

/// Reads members up to the brace behind the last.
pub fn read_members<'a>(reader: &mut Reader<'a>, members: &mut Members<'a>) -> Option<()>
    requires { members.old.items ≡ [] }
    ensures tokens { IfSome result (λ _. reader.old ≡ members_then members.new.items (end_object ∷ reader.new)) }
    ensures sound { IfSome result (λ _. AreSound members.new.items) }
{
    loop {
        match reader.next()? {
            Token::Key(name) => {
                let content = content_in(reader)?;
                members.push(Member { name, content }).ok()?;
            }
            Token::EndObject => return Some(()),
            _ => return None,
        }
    }
}

fn content_in<'a>(reader: &mut Reader<'a>) -> Option<Content<'a>>
    ensures token { IfSome result (λ content. reader.old ≡ content_token content ∷ reader.new) }
    ensures sound { IfSome result (λ content. IsSound content) }
{
    match reader.next()? {
        Token::String(text) => Some(Content::Text(text)),
        Token::Number(digits) => Some(Content::Number(digits, natural(digits)?)),
        Token::Null => Some(Content::Null),
        _ => None,
    }
}

fn natural(digits: &str) -> Option<u64>
    requires { IsNumber digits.now }
    ensures { IfSome result (λ number. number_of digits.now ≡ Some (unsigned number)) }
{
    match parse_u64(digits.as_bytes()) {
        Ok(number) => Some(number),
        Err(_) => None,
    }
}

impl<'a> FlatObject<'a> {
    // What the last member of a name has. It is looked for from the end, so the first that is met is that one.
    fn content(&self, name: &str) -> Option<Content<'a>>
        ensures { option_map content_data result ≡ get name.now (flat_json self.now) }
    {
        let members = self.members.as_slice();
        let mut left = members.len();
        while left > 0 {
            left -= 1;
            if members[left].name == name {
                return Some(members[left].content);
            }
        }
        None
    }
}

impl<'a> Object for FlatObject<'a> {
    ghost json = { flat_json };

    fn text(&self, field: Field) -> Option<&str> {
        match self.content(field.name()) {
            Some(Content::Text(text)) => Some(text),
            _ => None,
        }
    }

    fn number(&self, field: Field) -> Option<u64> {
        match self.content(field.name()) {
            Some(Content::Number(_, number)) => Some(number),
            _ => None,
        }
    }

    fn is_given(&self, field: Field) -> bool {
        match self.content(field.name()) {
            Some(Content::Null) | None => false,
            Some(_) => true,
        }
    }
}
