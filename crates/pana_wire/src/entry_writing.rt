//! Entries as texts.
ghost use Rattle.std.specs.Prelude.{◌≡◌, ◌++◌, IfOk, OnOk, string_bytes};
ghost use Rattle.std.specs.List.{All};
ghost use Rattle.json.specs.Tree.{json_tokens};
ghost use Rattle.serde_json.specs.Written.{outline};
ghost use Rattle.pana_wire.specs.Report.{entry_data};
ghost use Rattle.pana_wire.specs.Reply.{entries_data};
ghost use Rattle.pana_wire.specs.inner.LongLine.{IsKnown, IsTextOf};

use crate::json_writing::{begun_text, first_room, written_text};
use crate::report_writing::write_report;
use json::Writer;
use pana_journal::Entry;
use std::alloc::{AllocError, Global};

/// Writes the object of an entry of a page. Fails only where memory runs out.
#[tactic(auto, unfolding(crate::specs::Report::entry_data))]
fn write_entry(out: &mut Writer<Global>, entry: &Entry) -> Result<(), AllocError>
    ensures tokens { OnOk result (out.new.tokens ≡ out.old.tokens ++ json_tokens (outline (entry_data entry.now))) }
    ensures before { OnOk result (out.new.before ≡ out.old.before) }
    ensures known { OnOk result (IsKnown entry.now) }
{
    write_report::<true>(out, &entry.by, &entry.report, Some(entry.number))?;
    Ok(())
}

/// Writes an array of the objects of these entries. Fails only where memory runs out.
#[tactic(auto, unfolding(crate::specs::Reply::entries_data))]
pub(crate) fn write_entries(out: &mut Writer<Global>, entries: &[Entry]) -> Result<(), AllocError>
    ensures tokens { OnOk result (out.new.tokens ≡ out.old.tokens ++ json_tokens (outline (entries_data entries.now))) }
    ensures before { OnOk result (out.new.before ≡ out.old.before) }
    ensures known { OnOk result (All IsKnown entries.now) }
{
    out.begin_array()?;
    for entry in entries {
        write_entry(out, entry)?;
    }
    out.end_array()?;
    Ok(())
}

/// The text of an entry, as it stands in a line that has it. Fails only where memory runs out.
pub(crate) fn encode_one(alloc: Global, entry: &Entry) -> Result<String, AllocError>
    ensures { IfOk result (λ text. IsTextOf entry.now (string_bytes text)) }
{
    let mut out = begun_text(first_room(alloc)?);
    write_report::<false>(&mut out, &entry.by, &entry.report, Some(entry.number))?;
    Ok(written_text(out))
}
