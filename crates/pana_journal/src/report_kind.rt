ghost use Rattle.std.specs.Prelude.{◌≡◌};
ghost use Rattle.pana_journal.specs.Reports.{kind_name, kind_named, kind_of};

use crate::report::Report;

/// What kind of report it is.
#[derive(Clone, Copy, PartialEq, Eq)]
pub enum ReportKind {
    Register,
    Duplicate,
    Edit,
    Reconcile,
    Merge,
    Relocate,
    Remove,
    Note,
    Confirm,
    Withdraw,
}

/// All kinds.
const KINDS: [ReportKind; 10] = [
    ReportKind::Register,
    ReportKind::Duplicate,
    ReportKind::Edit,
    ReportKind::Reconcile,
    ReportKind::Merge,
    ReportKind::Relocate,
    ReportKind::Remove,
    ReportKind::Note,
    ReportKind::Confirm,
    ReportKind::Withdraw,
];

impl ReportKind {
    /// The kind's name, one word. Takes no memory.
    pub fn name(self) -> &'static str
        ensures { result.now ≡ kind_name self }
    {
        match self {
            ReportKind::Register => "register",
            ReportKind::Duplicate => "duplicate",
            ReportKind::Edit => "edit",
            ReportKind::Reconcile => "reconcile",
            ReportKind::Merge => "merge",
            ReportKind::Relocate => "relocate",
            ReportKind::Remove => "remove",
            ReportKind::Note => "note",
            ReportKind::Confirm => "confirm",
            ReportKind::Withdraw => "withdraw",
        }
    }

    /// The kind that has this name, if one has. Takes no memory.
    #[tactic(auto, unfolding(crate::specs::Reports::kind_named))]
    pub fn named(name: &str) -> Option<ReportKind>
        ensures { result ≡ kind_named name.now }
    {
        KINDS.iter().copied().find(|kind| kind.name() == name)
    }
}

impl Report {
    /// The report's kind. Takes no memory.
    pub fn kind(&self) -> ReportKind
        ensures { result ≡ kind_of self.now }
    {
        match self {
            Report::Register { .. } => ReportKind::Register,
            Report::Duplicate { .. } => ReportKind::Duplicate,
            Report::Edit { .. } => ReportKind::Edit,
            Report::Reconcile { .. } => ReportKind::Reconcile,
            Report::Merge { .. } => ReportKind::Merge,
            Report::Relocate { .. } => ReportKind::Relocate,
            Report::Remove { .. } => ReportKind::Remove,
            Report::Note { .. } => ReportKind::Note,
            Report::Confirm { .. } => ReportKind::Confirm,
            Report::Withdraw { .. } => ReportKind::Withdraw,
        }
    }
}
