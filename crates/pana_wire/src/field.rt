ghost use Rattle.std.specs.Prelude.{◌≡◌};
ghost use Rattle.pana_wire.specs.Field.{field_name};

/// A field of a line, which is a JSON object.
#[derive(Clone, Copy, Debug, PartialEq, Eq)]
pub enum Field {
    /// The device that speaks.
    By,
    /// The word for what it asks.
    Do,
    /// The device of a place.
    Device,
    /// The path of a place.
    Path,
    /// The number of a copy.
    Copy,
    /// The number of a family.
    Family,
    /// The number of the first of two copies.
    A,
    /// The number of the second of two copies.
    B,
    /// The number of the copy that inherits, where one does.
    Heir,
    /// The sum of what copies hold, where it is given.
    Sum,
    /// The number of an entry.
    Entry,
    /// The number of the first entry, or the first copy, of a page.
    From,
    /// The number that an entry has.
    Number,
    /// The entries of a dump.
    Entries,
    /// For how many seconds an answer may be waited for.
    Wait,
}

impl Field {
    /// The name of the field in a line. Takes no memory.
    pub fn name(self) -> &'static str
        ensures { result.now ≡ field_name self }
    {
        match self {
            Field::By => "by",
            Field::Do => "do",
            Field::Device => "device",
            Field::Path => "path",
            Field::Copy => "copy",
            Field::Family => "family",
            Field::A => "a",
            Field::B => "b",
            Field::Heir => "heir",
            Field::Sum => "sum",
            Field::Entry => "entry",
            Field::From => "from",
            Field::Number => "number",
            Field::Entries => "entries",
            Field::Wait => "wait",
        }
    }
}
