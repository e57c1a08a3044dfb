//! What comes of a report.
ghost use Rattle.std.specs.Prelude.{◌≡◌, IfOk, string_bytes};
ghost use Rattle.pana_ask.specs.Report.{end_in, end_line, end_status};

use pana_calls::{Answer, Cause, Reply};
use pana_journal::ReportKind;
use std::alloc::{AllocError, Global};

/// What comes of what was reported.
#[derive(Clone, Copy)]
pub enum ReportEnd {
    /// The report is this entry.
    Entry(u64),
    /// What was seen came to a report of this kind; where it took two, this is the last one's kind and entry.
    Did { kind: ReportKind, entry: u64 },
    /// What was seen was known, and nothing was done.
    Known,
    /// It was refused.
    Refused(Cause),
    /// Nothing stands against it, but it can't be kept.
    NotKept,
}

impl ReportEnd {
    /// What an answer says of a report, where it says something.
    pub(crate) fn of(answer: &Answer) -> Option<ReportEnd>
        ensures { result ≡ end_in answer.now }
    {
        match answer {
            Answer::Given(Reply::Done { entry }) => Some(ReportEnd::Entry(*entry)),
            Answer::Given(Reply::Did { kind, entry }) => Some(ReportEnd::Did {
                kind: *kind,
                entry: *entry,
            }),
            Answer::Given(Reply::Known { .. }) => Some(ReportEnd::Known),
            Answer::Given(Reply::Refused(cause)) => Some(ReportEnd::Refused(*cause)),
            Answer::Given(_) => None,
            Answer::NotKept => Some(ReportEnd::NotKept),
        }
    }

    /// The line that says so, with its newline. Fails only where memory runs out.
    pub fn line(self, alloc: Global) -> Result<String, AllocError>
        ensures { IfOk result (λ line. string_bytes line ≡ end_line self) }
    {
        match self {
            ReportEnd::Entry(entry) => format!(in alloc; "entry {entry}\n"),
            ReportEnd::Did { kind, entry } => {
                let name = kind.name();
                format!(in alloc; "{name}, entry {entry}\n")
            }
            ReportEnd::Known => String::from_str(alloc, "known\n"),
            ReportEnd::Refused(cause) => format!(in alloc; "refused: {cause}\n"),
            ReportEnd::NotKept => String::from_str(alloc, "refused: NotKept\n"),
        }
    }

    /// The exit status that says so: 1 where it was refused, else 0. Takes no memory.
    pub fn status(self) -> u8
        ensures { result ≡ end_status self }
    {
        match self {
            ReportEnd::Refused(_) | ReportEnd::NotKept => 1,
            _ => 0,
        }
    }
}
