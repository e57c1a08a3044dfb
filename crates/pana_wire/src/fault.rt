ghost use Rattle.std.specs.Prelude.{◌≡◌};
ghost use Rattle.pana_wire.specs.Fault.{fault_text};
ghost use Rattle.pana_wire.specs.Shown.{fault_name};

use crate::field::Field;
use std::error::Error;
use std::fmt;

/// Why a line asks nothing: the first of these that holds, in this order.
#[derive(Clone, Copy, Debug, PartialEq, Eq)]
pub enum WireFault {
    /// It has more than 65,536 bytes, or as a line of a dump more than 1,048,576.
    TooLong,
    /// It isn't UTF-8.
    NotUtf8,
    /// It isn't JSON.
    NotJson,
    /// It is JSON, but no object.
    NotObject,
    /// This field, the first such one, is missing or bad.
    BadField(Field),
    /// An allocation failed.
    OutOfMemory,
}

impl WireFault {
    /// The name of the fault in a line that answers with it. Takes no memory.
    pub fn name(self) -> &'static str
        ensures { result.now ≡ fault_name self }
    {
        match self {
            WireFault::TooLong => "TooLong",
            WireFault::NotUtf8 => "NotUtf8",
            WireFault::NotJson => "NotJson",
            WireFault::NotObject => "NotObject",
            WireFault::BadField(_) => "BadField",
            WireFault::OutOfMemory => "OutOfMemory",
        }
    }

    /// The answer to a line with this fault. Takes no memory.
    pub fn answer(self) -> &'static str
        ensures { result.now ≡ fault_text self }
    {
        match self {
            WireFault::TooLong => "{\"fault\":\"TooLong\"}",
            WireFault::NotUtf8 => "{\"fault\":\"NotUtf8\"}",
            WireFault::NotJson => "{\"fault\":\"NotJson\"}",
            WireFault::NotObject => "{\"fault\":\"NotObject\"}",
            WireFault::BadField(Field::By) => "{\"fault\":\"BadField\",\"field\":\"by\"}",
            WireFault::BadField(Field::Do) => "{\"fault\":\"BadField\",\"field\":\"do\"}",
            WireFault::BadField(Field::Device) => "{\"fault\":\"BadField\",\"field\":\"device\"}",
            WireFault::BadField(Field::Path) => "{\"fault\":\"BadField\",\"field\":\"path\"}",
            WireFault::BadField(Field::Copy) => "{\"fault\":\"BadField\",\"field\":\"copy\"}",
            WireFault::BadField(Field::Family) => "{\"fault\":\"BadField\",\"field\":\"family\"}",
            WireFault::BadField(Field::A) => "{\"fault\":\"BadField\",\"field\":\"a\"}",
            WireFault::BadField(Field::B) => "{\"fault\":\"BadField\",\"field\":\"b\"}",
            WireFault::BadField(Field::Heir) => "{\"fault\":\"BadField\",\"field\":\"heir\"}",
            WireFault::BadField(Field::Sum) => "{\"fault\":\"BadField\",\"field\":\"sum\"}",
            WireFault::BadField(Field::Entry) => "{\"fault\":\"BadField\",\"field\":\"entry\"}",
            WireFault::BadField(Field::From) => "{\"fault\":\"BadField\",\"field\":\"from\"}",
            WireFault::BadField(Field::Number) => "{\"fault\":\"BadField\",\"field\":\"number\"}",
            WireFault::BadField(Field::Entries) => "{\"fault\":\"BadField\",\"field\":\"entries\"}",
            WireFault::BadField(Field::Wait) => "{\"fault\":\"BadField\",\"field\":\"wait\"}",
            WireFault::OutOfMemory => "{\"fault\":\"OutOfMemory\"}",
        }
    }
}

impl fmt::Display for WireFault {
    ghost use Rattle.std.specs.Prelude.{Some};
    ghost use Rattle.pana_wire.specs.Shown.{shown_fault};

    ghost output = { λ fault. Some (shown_fault fault) };

    fn fmt<W: fmt::Write>(&self, f: &mut fmt::Formatter<W>) -> fmt::Result {
        match self {
            WireFault::BadField(field) => write!(f, "{} {}", self.name(), field.name()),
            fault => f.write_str(fault.name()),
        }
    }
}

impl Error for WireFault {}
