//! Whether what stands in a log is what was meant.
ghost use Rattle.std.specs.Prelude.{◌≡◌, ◌≢◌, false, IsTrue};

use pana_journal::Entry;
use pana_shared::Record;

/// Whether two entries are one.
pub(crate) fn is_entry(found: &Entry, entry: &Entry) -> bool
    ensures same { IsTrue result → found.now ≡ entry.now }
    ensures other { result ≡ false → found.now ≢ entry.now }
{
    found.number == entry.number && found.by == entry.by && found.report == entry.report
}

/// Whether two records are one.
pub(crate) fn is_record(found: &Record, wanted: &Record) -> bool
    ensures same { IsTrue result → found.now ≡ wanted.now }
    ensures other { result ≡ false → found.now ≢ wanted.now }
{
    found.writer == wanted.writer
        && found.turn == wanted.turn
        && is_entry(&found.entry, &wanted.entry)
}
