//! The words of reports and sightings.
ghost use Rattle.std.specs.Prelude.{◌≡◌, IfSome};
ghost use Rattle.pana_ask.specs.Words.{word_name, word_of};

/// The word for what is reported.
#[derive(Clone, Copy)]
pub enum ReportWord {
    Register,
    Duplicate,
    Edit,
    Reconcile,
    Merge,
    Relocate,
    Remove,
    Note,
    Confirm,
    Withdraw,
    Found,
    Missing,
}

/// All words.
const WORDS: [ReportWord; 12] = [
    ReportWord::Register,
    ReportWord::Duplicate,
    ReportWord::Edit,
    ReportWord::Reconcile,
    ReportWord::Merge,
    ReportWord::Relocate,
    ReportWord::Remove,
    ReportWord::Note,
    ReportWord::Confirm,
    ReportWord::Withdraw,
    ReportWord::Found,
    ReportWord::Missing,
];

impl ReportWord {
    /// The word as it is spelled. Takes no memory.
    pub fn name(self) -> &'static str
        ensures { result.now ≡ word_name self }
    {
        match self {
            ReportWord::Register => "register",
            ReportWord::Duplicate => "duplicate",
            ReportWord::Edit => "edit",
            ReportWord::Reconcile => "reconcile",
            ReportWord::Merge => "merge",
            ReportWord::Relocate => "relocate",
            ReportWord::Remove => "remove",
            ReportWord::Note => "note",
            ReportWord::Confirm => "confirm",
            ReportWord::Withdraw => "withdraw",
            ReportWord::Found => "found",
            ReportWord::Missing => "missing",
        }
    }
}

/// The word that the text is, if it is one.
#[tactic(auto, unfolding(crate::specs::Words::word_of))]
fn word_of(text: &str) -> Option<ReportWord>
    ensures { result ≡ word_of text.now }
{
    WORDS.iter().copied().find(|word| word.name() == text)
}

impl ReportWord {
    /// The word that is spelled so, if one is. Takes no memory.
    pub fn of(text: &str) -> Option<ReportWord>
        ensures word { result ≡ word_of text.now }
        ensures named { IfSome result (λ word. word_name word ≡ text.now) }
    {
        word_of(text)
    }
}
