ghost use Rattle.std.specs.Prelude.{◌≡◌};
ghost use Rattle.pana_wire.specs.Word.{word_name, word_of};
ghost use Rattle.pana_wire.specs.Report.{kind_word};

use pana_journal::ReportKind;

/// The word in a line for what is asked.
#[derive(Clone, Copy, PartialEq, Eq)]
pub enum Word {
    Register,
    Duplicate,
    Edit,
    Reconcile,
    Merge,
    Relocate,
    Remove,
    Note,
    Confirm,
    Withdraw,
    Found,
    Missing,
    Families,
    Board,
    Stamps,
    Pair,
    Holdings,
    At,
    Status,
    Journal,
    Counts,
}

impl Word {
    /// The word as it is spelled. Takes no memory.
    pub fn name(self) -> &'static str
        ensures { result.now ≡ word_name self }
    {
        match self {
            Word::Register => "register",
            Word::Duplicate => "duplicate",
            Word::Edit => "edit",
            Word::Reconcile => "reconcile",
            Word::Merge => "merge",
            Word::Relocate => "relocate",
            Word::Remove => "remove",
            Word::Note => "note",
            Word::Confirm => "confirm",
            Word::Withdraw => "withdraw",
            Word::Found => "found",
            Word::Missing => "missing",
            Word::Families => "families",
            Word::Board => "board",
            Word::Stamps => "stamps",
            Word::Pair => "pair",
            Word::Holdings => "holdings",
            Word::At => "at",
            Word::Status => "status",
            Word::Journal => "journal",
            Word::Counts => "counts",
        }
    }
}

/// The word that the text is, if it is one. Takes no memory.
#[tactic(auto, unfolding(crate::specs::Word::word_of))]
pub fn word_of(text: &str) -> Option<Word>
    ensures { result ≡ word_of text.now }
{
    match text {
        "register" => Some(Word::Register),
        "duplicate" => Some(Word::Duplicate),
        "edit" => Some(Word::Edit),
        "reconcile" => Some(Word::Reconcile),
        "merge" => Some(Word::Merge),
        "relocate" => Some(Word::Relocate),
        "remove" => Some(Word::Remove),
        "note" => Some(Word::Note),
        "confirm" => Some(Word::Confirm),
        "withdraw" => Some(Word::Withdraw),
        "found" => Some(Word::Found),
        "missing" => Some(Word::Missing),
        "families" => Some(Word::Families),
        "board" => Some(Word::Board),
        "stamps" => Some(Word::Stamps),
        "pair" => Some(Word::Pair),
        "holdings" => Some(Word::Holdings),
        "at" => Some(Word::At),
        "status" => Some(Word::Status),
        "journal" => Some(Word::Journal),
        "counts" => Some(Word::Counts),
        _ => None,
    }
}

/// The word for reports of this kind. Takes no memory.
pub fn kind_word(kind: ReportKind) -> Word
    ensures { result ≡ kind_word kind }
{
    match kind {
        ReportKind::Register => Word::Register,
        ReportKind::Duplicate => Word::Duplicate,
        ReportKind::Edit => Word::Edit,
        ReportKind::Reconcile => Word::Reconcile,
        ReportKind::Merge => Word::Merge,
        ReportKind::Relocate => Word::Relocate,
        ReportKind::Remove => Word::Remove,
        ReportKind::Note => Word::Note,
        ReportKind::Confirm => Word::Confirm,
        ReportKind::Withdraw => Word::Withdraw,
    }
}
