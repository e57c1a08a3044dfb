ghost use Rattle.std.specs.Prelude.{◌≡◌};
ghost use Rattle.pana_calls.specs.Cause.{code_of, cause_name, cause_copy};

use std::error::Error;
use std::fmt;

/// Why a call was refused. A refused call changes nothing.
#[derive(Clone, Copy, Debug, PartialEq, Eq)]
pub enum Cause {
    /// The journal has 1,000,000 entries.
    JournalFull,
    /// No living copy has this number.
    UnknownCopy(u64),
    /// The two copies are one.
    SameCopy,
    /// The two copies are of two families.
    OtherFamily,
    /// This living copy has the place that is asked for.
    PlaceTaken(u64),
    /// The family has 256 living copies.
    FamilyFull,
    /// The source's id can't be divided any more: its one part is 256 deep.
    TooDeep,
    /// Memory ran out.
    OutOfMemory,
    /// No entry that reported something of a copy has this number.
    UnknownEntry,
    /// Another device reported the entry.
    NotYours,
    /// The entry isn't pending, or, where it is to be withdrawn, isn't the last that is.
    Settled,
    /// No Register entry has this number.
    UnknownFamily,
}

impl Cause {
    /// The number that stands for the cause in a line. Takes no memory.
    pub fn code(&self) -> u32
        ensures { result ≡ code_of self.now }
    {
        match self {
            Cause::JournalFull => 1,
            Cause::UnknownCopy(_) => 2,
            Cause::SameCopy => 3,
            Cause::OtherFamily => 4,
            Cause::PlaceTaken(_) => 6,
            Cause::FamilyFull => 7,
            Cause::TooDeep => 8,
            Cause::OutOfMemory => 9,
            Cause::UnknownEntry => 10,
            Cause::NotYours => 11,
            Cause::Settled => 12,
            Cause::UnknownFamily => 13,
        }
    }

    /// The name of the cause, as in a line. Takes no memory.
    pub fn name(&self) -> &'static str
        ensures { result.now ≡ cause_name self.now }
    {
        match self {
            Cause::JournalFull => "JournalFull",
            Cause::UnknownCopy(_) => "UnknownCopy",
            Cause::SameCopy => "SameCopy",
            Cause::OtherFamily => "OtherFamily",
            Cause::PlaceTaken(_) => "PlaceTaken",
            Cause::FamilyFull => "FamilyFull",
            Cause::TooDeep => "TooDeep",
            Cause::OutOfMemory => "OutOfMemory",
            Cause::UnknownEntry => "UnknownEntry",
            Cause::NotYours => "NotYours",
            Cause::Settled => "Settled",
            Cause::UnknownFamily => "UnknownFamily",
        }
    }

    /// The copy that the cause names, if it names one. Takes no memory.
    pub fn copy(&self) -> Option<u64>
        ensures { result ≡ cause_copy self.now }
    {
        match self {
            Cause::UnknownCopy(copy) | Cause::PlaceTaken(copy) => Some(*copy),
            _ => None,
        }
    }
}

impl fmt::Display for Cause {
    ghost use Rattle.std.specs.Prelude.{Some};
    ghost use Rattle.pana_calls.specs.Cause.{shown_cause};

    ghost output = { λ cause. Some (shown_cause cause) };

    fn fmt<W: fmt::Write>(&self, f: &mut fmt::Formatter<W>) -> fmt::Result {
        match self.copy() {
            Some(copy) => write!(f, "{} {copy}", self.name()),
            None => f.write_str(self.name()),
        }
    }
}

impl Error for Cause {}
