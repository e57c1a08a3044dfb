//! The stamps of copies, as texts.
ghost use Rattle.std.specs.Prelude.{◌≡◌, IfOk, map, filter};
ghost use Rattle.pana_family.specs.{Stamps.text_of, Stamps.row_text, Rows.AreSound, Holders.is_copy};

use crate::row::StampRow;
use crate::searching::is_copy;
use pana_calls::CopyStamp;
use pana_text::write;
use std::alloc::{AllocError, Global};

/// The trees of rows are within the limits, which their types say.
pub fn all_valid(rows: &[StampRow])
    ensures { AreSound rows.now }
{
    for row in rows {
        let _ = row.stamp.id().node();
        let _ = row.stamp.event_tree().node();
    }
}

fn stamp_of(alloc: Global, row: &StampRow) -> Result<CopyStamp, AllocError>
    ensures { IfOk result (λ stamp. text_of stamp ≡ row_text row.now) }
{
    let text = write(alloc, &row.stamp)?;
    Ok(CopyStamp {
        copy: row.copy,
        text,
    })
}

/// The texts of the copies' stamps.
pub fn stamps_of(alloc: Global, rows: &[StampRow]) -> Result<Vec<CopyStamp>, AllocError>
    ensures { IfOk result (λ stamps. map text_of stamps.items ≡ map row_text (filter (λ row. is_copy row.holder) rows.now)) }
{
    let mut stamps = Vec::new(alloc);
    for row in rows {
        if is_copy(row) {
            stamps.push(stamp_of(alloc, row)?)?;
        }
    }
    Ok(stamps)
}
