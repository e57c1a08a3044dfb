//! Boards, families and stamps as texts.
use crate::json_writing::{
    WriteJson, write_count, write_flag, write_list, write_number, write_row_number, write_text,
};
use json::Writer;
use pana_calls::{BoardRow, BoardView, CopyStamp, FamilyRow};
use std::alloc::{AllocError, Global};

impl WriteJson for BoardRow {
    ghost use Rattle.pana_wire.specs.Reply.{row_data};

    ghost json = { row_data };

    fn write(&self, out: &mut Writer<Global>) -> Result<(), AllocError> {
        out.begin_object()?;
        write_count(out, "conflict", self.conflict)?;
        write_row_number(out, "copy", self.copy)?;
        write_text(out, "device", self.place.device.as_str())?;
        write_count(out, "equal", self.equal)?;
        write_count(out, "newer", self.newer)?;
        write_count(out, "older", self.older)?;
        write_text(out, "path", self.place.path.as_str())?;
        out.end_object()
    }
}

impl WriteJson for BoardView {
    ghost use Rattle.pana_wire.specs.Reply.{board_data};

    ghost json = { board_data };

    fn write(&self, out: &mut Writer<Global>) -> Result<(), AllocError> {
        out.begin_object()?;
        out.key("copies")?;
        write_list(out, self.rows.as_slice())?;
        write_number(out, "family", self.family)?;
        out.key("newest")?;
        write_list(out, self.newest.as_slice())?;
        write_flag(out, "split", self.split)?;
        out.end_object()
    }
}

impl WriteJson for FamilyRow {
    ghost use Rattle.pana_wire.specs.Reply.{family_data};

    ghost json = { family_data };

    #[tactic(auto, unfolding(crate::specs::Reply::family_data))]
    fn write(&self, out: &mut Writer<Global>) -> Result<(), AllocError> {
        out.begin_object()?;
        write_count(out, "copies", self.copies)?;
        write_row_number(out, "family", self.family)?;
        write_count(out, "newest", self.newest)?;
        write_flag(out, "split", self.split)?;
        out.end_object()
    }
}

impl WriteJson for CopyStamp {
    ghost use Rattle.pana_wire.specs.Reply.{stamp_data};

    ghost json = { stamp_data };

    fn write(&self, out: &mut Writer<Global>) -> Result<(), AllocError> {
        out.begin_object()?;
        write_number(out, "copy", self.copy)?;
        write_text(out, "stamp", self.text.as_str())?;
        out.end_object()
    }
}
