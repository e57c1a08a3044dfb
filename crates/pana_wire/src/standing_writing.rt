//! Single copies, and how many there are, as texts.
ghost use Rattle.std.specs.Prelude.{◌≡◌, option_copied};

use crate::json_writing::{WriteJson, write_number, write_row_number, write_sum, write_text};
use json::Writer;
use pana_calls::{CopyStanding, HallCounts, Holding, StatusRow};
use pana_copies::Sum;
use std::alloc::{AllocError, Global};

fn lent(sum: &Option<Sum>) -> Option<&Sum>
    ensures { option_copied result ≡ sum.now }
{
    match sum {
        Some(sum) => Some(sum),
        None => None,
    }
}

impl WriteJson for Holding {
    ghost use Rattle.pana_wire.specs.Reply.{holding_data};

    ghost json = { holding_data };

    fn write(&self, out: &mut Writer<Global>) -> Result<(), AllocError> {
        out.begin_object()?;
        write_row_number(out, "copy", self.copy)?;
        write_row_number(out, "family", self.family)?;
        write_text(out, "path", self.path.as_str())?;
        write_sum(out, "sum", lent(&self.sum))?;
        write_row_number(out, "touch", self.touch)?;
        out.end_object()
    }
}

impl WriteJson for CopyStanding {
    ghost use Rattle.pana_wire.specs.Reply.{standing_data, with_sum};

    ghost json = { λ standing. with_sum standing.sum (standing_data standing) };

    fn write(&self, out: &mut Writer<Global>) -> Result<(), AllocError> {
        out.begin_object()?;
        write_number(out, "conflict", self.conflict)?;
        write_number(out, "copy", self.copy)?;
        write_number(out, "equal", self.equal)?;
        write_number(out, "family", self.family)?;
        write_number(out, "newer", self.newer)?;
        write_number(out, "older", self.older)?;
        write_text(out, "state", self.state.name())?;
        write_sum(out, "sum", lent(&self.sum))?;
        out.end_object()
    }
}

impl WriteJson for StatusRow {
    ghost use Rattle.pana_wire.specs.Reply.{status_row_data};

    ghost json = { status_row_data };

    fn write(&self, out: &mut Writer<Global>) -> Result<(), AllocError> {
        out.begin_object()?;
        write_number(out, "copy", self.copy)?;
        write_text(out, "device", self.place.device.as_str())?;
        write_text(out, "path", self.place.path.as_str())?;
        write_text(out, "state", self.state.name())?;
        out.key("with")?;
        out.begin_object()?;
        write_number(out, "copy", self.with.copy)?;
        write_text(out, "device", self.with.place.device.as_str())?;
        write_text(out, "path", self.with.place.path.as_str())?;
        out.end_object()?;
        out.end_object()
    }
}

impl WriteJson for HallCounts {
    ghost use Rattle.pana_wire.specs.Reply.{counts_data};

    ghost json = { counts_data };

    #[tactic(auto, unfolding(crate::specs::Reply::counts_data))]
    fn write(&self, out: &mut Writer<Global>) -> Result<(), AllocError> {
        out.begin_object()?;
        write_number(out, "copies", self.copies)?;
        write_number(out, "devices", self.devices)?;
        out.end_object()
    }
}
