use crate::fault::WireFault;
use std::error::Error;
use std::fmt;

/// The fault of a line, and the line's number, from 1.
#[derive(Clone, Copy, Debug, PartialEq, Eq)]
pub struct LineFault {
    pub line: u64,
    pub fault: WireFault,
}

impl fmt::Display for LineFault {
    ghost use Rattle.std.specs.Prelude.{Some};
    ghost use Rattle.pana_wire.specs.Shown.{shown_line_fault};

    ghost output = { λ fault. Some (shown_line_fault fault) };

    fn fmt<W: fmt::Write>(&self, f: &mut fmt::Formatter<W>) -> fmt::Result {
        let LineFault { line, fault } = self;
        write!(f, "line {line}: {fault}")
    }
}

impl Error for LineFault {}
